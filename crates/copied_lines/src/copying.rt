// The lines of one page.
ghost use Rattle.std.specs.Prelude.{◌≡◌, ◌≢◌, ◌≤◌, ◌<◌, ◌+◌, ◌^◌, ◌++◌, ◌∷◌, [], ℕ, Bool, List, length, OnOk, OnErr, IsErrOf, IsTrue, is_ok};
ghost use Rattle.rdb_types.specs.declared.file.FileId.{FileId as File};
ghost use Rattle.rdb_types.specs.declared.keys.Dbkey.{Dbkey as Key};
ghost use Rattle.rdb_outside.specs.Causes.{Rose};
ghost use Rattle.rdb_outside.specs.Disk.{LeavesOnly, Image as Content};
ghost use Rattle.rdb_page.specs.Lines.{IsAllowedLine};
ghost use Rattle.rdb_page.specs.Page.{IsClass, StandsAs};
ghost use Rattle.rdb_page.specs.Whole.{IsPageOf};
ghost use Rattle.area_files.specs.Areas.{IsDataPage};
ghost use Rattle.backup_file.specs.Line.{IsAllowed};
ghost use Rattle.backup_file.specs.declared.line.BackupLine.{BackupLine as Copied};
ghost use Rattle.backup_making.specs.declared.making.Stage.TheVariants.{Open};
ghost use Rattle.backup_making.specs.Making.{file_of, Former, Steps, IsAt};
ghost use Rattle.stable_lines.specs.Progress.{Progress};
ghost use Rattle.database_opening.specs.Others.{KeepsFile};
ghost use Rattle.used_pages.specs.declared.pages.AreaPage.{AreaPage as Page};
ghost use Rattle.used_pages.specs.Pages.{bytes_at};
ghost use Rattle.copied_lines.specs.Holding.{on_pages, from_line, AreBehind};
ghost use Rattle.copied_lines.specs.Copying.{page_named, IsLineAt, Copying, IsGrown, IsStopped};

use area_files::slot_of;
use backup_file::BackupLine;
use backup_making::{Backup, BackupTurn};
use line_moves::area_file;
use line_store::Fault;
use rdb_outside::Disk;
use rdb_page::{Head, lines_of, read_line};
use rdb_types::{Dbkey, Line, LineState};

// Writes a line into the backup.
fn put_line<D: Disk>(disk: &mut D, line: BackupLine, backup: &mut Backup) -> Result<(), Fault>
    requires is_open { backup.old.stage ≡ Open }
    requires last_group { backup.old.last_group ≤ 2 ^ 62 }
    requires room { backup.old.lines + 1 < 2 ^ 32 }
    requires allowed { IsAllowed line }
    ensures one_more { OnOk result (backup.new ≡ record backup.old { lines = backup.old.lines + 1 }) }
    ensures steps { Steps (file_of backup.old.number) (D.view disk.old) (D.view disk.new) (is_ok result) }
    ensures done { OnOk result (IsTrue (D.view disk.old).tells → (former : Former) (lines : List Copied)
        → IsAt former (D.view disk.old) backup.old lines
        → IsAt former (D.view disk.new) backup.new (lines ++ line ∷ [])) }
    ensures not_done { OnErr result (IsTrue (D.view disk.old).tells → (former : Former) (lines : List Copied)
        → IsAt former (D.view disk.old) backup.old lines
        → IsAt former (D.view disk.new) backup.old lines) }
    ensures no_slot { (file : File) (slot : ℕ) → IsErrOf result (Fault.Bad file slot) → ⊥ }
{
    match backup.step(disk, Some(line)) {
        BackupTurn::Failed => Err(Fault::Failed),
        _ => Ok(()),
    }
}

// Copies a line, if it is present.
fn copy_line<D: Disk>(
    disk: &mut D,
    head: Head,
    line: u16,
    stood: Line,
    backup: &mut Backup,
) -> Result<(), Fault>
    requires is_open { backup.old.stage ≡ Open }
    requires last_group { backup.old.last_group ≤ 2 ^ 62 }
    requires room { backup.old.lines + 1 < 2 ^ 32 }
    requires class { IsClass head.class }
    requires allowed { IsAllowedLine head.class stood }
    ensures grown { OnOk result (IsGrown backup.old backup.new 1) }
    ensures told { (D.view disk.new).tells ≡ (D.view disk.old).tells }
    ensures no_fewer { (D.view disk.old).faults ≤ (D.view disk.new).faults }
    ensures failed { IsErrOf result Fault.Failed
        → Rose (D.view disk.old).faults (D.view disk.new).faults }
    ensures no_slot { (file : File) (slot : ℕ) → IsErrOf result (Fault.Bad file slot) → ⊥ }
    ensures copied { OnOk result (IsTrue (D.view disk.old).tells
        → (former : Former) (image : Content) (now : Progress) (left : Page → Bool) (file : ℕ)
        → IsLineAt image file head line stood → AreBehind (page_named head) left
        → Copying former image now (from_line left (page_named head) line) (D.view disk.old) backup.old
        → Copying former image now (from_line left (page_named head) (line + 1)) (D.view disk.new) backup.new) }
    ensures stopped { IsTrue (D.view disk.old).tells
        → (former : Former) (image : Content) (now : Progress) (left : Key → Bool)
        → Copying former image now left (D.view disk.old) backup.old
        → LeavesOnly (D.view disk.old) (D.view disk.new) (IsStopped now backup.old.number) }
    ensures others { IsTrue (D.view disk.old).tells
        → (file : File) → file ≢ file_of backup.old.number
        → KeepsFile file (D.view disk.old) (D.view disk.new) }
{
    match stood.state {
        LineState::Present => put_line(
            disk,
            BackupLine {
                key: Dbkey {
                    area: head.owner,
                    page: head.page,
                    line,
                },
                class: head.class,
                tsn: stood.tsn,
                image: stood.image,
            },
            backup,
        ),
        _ => Ok(()),
    }
}

/// Copies the present lines of a page with this head.
pub(crate) fn copy_lines<D: Disk>(
    disk: &mut D,
    page: &[u8],
    file: u32,
    head: Head,
    backup: &mut Backup,
) -> Result<(), Fault>
    requires size { length page.now ≡ 1024 }
    requires stands { StandsAs page.now file head.page head }
    requires data { IsDataPage head.page }
    requires is_open { backup.old.stage ≡ Open }
    requires last_group { backup.old.last_group ≤ 2 ^ 62 }
    requires room { backup.old.lines + 4 < 2 ^ 32 }
    ensures grown { OnOk result (IsGrown backup.old backup.new 4) }
    ensures told { (D.view disk.new).tells ≡ (D.view disk.old).tells }
    ensures no_fewer { (D.view disk.old).faults ≤ (D.view disk.new).faults }
    ensures failed { IsErrOf result Fault.Failed
        → Rose (D.view disk.old).faults (D.view disk.new).faults }
    ensures bad { (f : File) (slot : ℕ) → IsErrOf result (Fault.Bad f slot)
        → IsPageOf file head.page page.now → ⊥ }
    ensures copied { OnOk result (IsTrue (D.view disk.old).tells
        → (former : Former) (image : Content) (now : Progress) (left : Page → Bool)
        → page.now ≡ bytes_at image file head.page → AreBehind (page_named head) left
        → Copying former image now (from_line left (page_named head) 0) (D.view disk.old) backup.old
        → Copying former image now (on_pages left) (D.view disk.new) backup.new) }
    ensures stopped { IsTrue (D.view disk.old).tells
        → (former : Former) (image : Content) (now : Progress) (left : Page → Bool)
        → page.now ≡ bytes_at image file head.page → AreBehind (page_named head) left
        → Copying former image now (from_line left (page_named head) 0) (D.view disk.old) backup.old
        → LeavesOnly (D.view disk.old) (D.view disk.new) (IsStopped now backup.old.number) }
    ensures others { IsTrue (D.view disk.old).tells
        → (file : File) → file ≢ file_of backup.old.number
        → KeepsFile file (D.view disk.old) (D.view disk.new) }
{
    for line in 0..lines_of(head.class) {
        let Ok(stood) = read_line(page, line) else {
            return Err(Fault::Bad(area_file(file), slot_of(head.page)));
        };
        copy_line(disk, head, line, stood, backup)?;
    }
    Ok(())
}
