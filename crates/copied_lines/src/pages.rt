// The pages, one after another.
ghost use Rattle.std.specs.Prelude.{◌≡◌, ◌≢◌, ◌≤◌, ◌<◌, ◌+◌, ◌*◌, ◌^◌, ℕ, Bool, false, length, OnOk, IsErrOf, IsTrue};
ghost use Rattle.std.specs.BTreeSet.{btree_set_len, contains};
ghost use Rattle.rdb_types.specs.declared.file.FileId.{FileId as File};
ghost use Rattle.rdb_types.specs.declared.keys.Dbkey.{Dbkey as Key};
ghost use Rattle.rdb_outside.specs.Causes.{Rose};
ghost use Rattle.rdb_outside.specs.Disk.{LeavesOnly, Image as Content};
ghost use Rattle.rdb_page.specs.Page.{IsOwner, StandsAs};
ghost use Rattle.rdb_page.specs.Whole.{IsPageOf};
ghost use Rattle.area_files.specs.Areas.{IsDataPage};
ghost use Rattle.backup_making.specs.declared.making.Stage.TheVariants.{Open};
ghost use Rattle.backup_making.specs.Making.{file_of, Former};
ghost use Rattle.stable_lines.specs.Progress.{Progress};
ghost use Rattle.database_opening.specs.Others.{KeepsFile};
ghost use Rattle.used_pages.specs.declared.pages.AreaPage.{AreaPage as Page};
ghost use Rattle.used_pages.specs.Pages.{page_order, bytes_at, IsPlaced, ArePlaced};
ghost use Rattle.copied_lines.specs.Holding.{on_pages, from_line, AreBehind};
ghost use Rattle.copied_lines.specs.Copying.{Copying, IsStopped, IsGrown};

use crate::copying::copy_lines;
use area_files::{slot_of, storage_area};
use backup_making::Backup;
use line_moves::area_file;
use line_store::Fault;
use rdb_outside::Disk;
use rdb_page::{Head, read_head};
use used_pages::{AreaPage, UsedPages};

// Copies the present lines of a page with this head, if it is of the area.
fn copy_owned<D: Disk>(
    disk: &mut D,
    bytes: &[u8],
    file: u32,
    area: u32,
    head: Head,
    backup: &mut Backup,
) -> Result<(), Fault>
    requires size { length bytes.now ≡ 1024 }
    requires stands { StandsAs bytes.now file head.page head }
    requires data { IsDataPage head.page }
    requires is_open { backup.old.stage ≡ Open }
    requires last_group { backup.old.last_group ≤ 2 ^ 62 }
    requires room { backup.old.lines + 4 < 2 ^ 32 }
    ensures grown { OnOk result (IsGrown backup.old backup.new 4) }
    ensures told { (D.view disk.new).tells ≡ (D.view disk.old).tells }
    ensures no_fewer { (D.view disk.old).faults ≤ (D.view disk.new).faults }
    ensures failed { IsErrOf result Fault.Failed
        → Rose (D.view disk.old).faults (D.view disk.new).faults }
    ensures bad { (f : File) (slot : ℕ) → IsErrOf result (Fault.Bad f slot)
        → IsPageOf file head.page bytes.now → ⊥ }
    ensures copied { OnOk result (IsTrue (D.view disk.old).tells
        → (former : Former) (image : Content) (now : Progress) (left : Page → Bool)
        → IsOwner file area → bytes.now ≡ bytes_at image file head.page
        → AreBehind (record { area = area; page = head.page }) left
        → Copying former image now (from_line left (record { area = area; page = head.page }) 0) (D.view disk.old) backup.old
        → Copying former image now (on_pages left) (D.view disk.new) backup.new) }
    ensures stopped { IsTrue (D.view disk.old).tells
        → (former : Former) (image : Content) (now : Progress) (left : Page → Bool)
        → IsOwner file area → bytes.now ≡ bytes_at image file head.page
        → AreBehind (record { area = area; page = head.page }) left
        → Copying former image now (from_line left (record { area = area; page = head.page }) 0) (D.view disk.old) backup.old
        → LeavesOnly (D.view disk.old) (D.view disk.new) (IsStopped now backup.old.number) }
    ensures others { IsTrue (D.view disk.old).tells
        → (file : File) → file ≢ file_of backup.old.number
        → KeepsFile file (D.view disk.old) (D.view disk.new) }
{
    if head.owner != area {
        return Ok(());
    }
    copy_lines(disk, bytes, file, head, backup)
}

// Copies the present lines of a page.
fn copy_page<D: Disk>(disk: &mut D, page: AreaPage, backup: &mut Backup) -> Result<(), Fault>
    requires placed { IsPlaced page }
    requires is_open { backup.old.stage ≡ Open }
    requires last_group { backup.old.last_group ≤ 2 ^ 62 }
    requires room { backup.old.lines + 4 < 2 ^ 32 }
    ensures grown { OnOk result (IsGrown backup.old backup.new 4) }
    ensures told { (D.view disk.new).tells ≡ (D.view disk.old).tells }
    ensures no_fewer { (D.view disk.old).faults ≤ (D.view disk.new).faults }
    ensures failed { IsErrOf result Fault.Failed
        → Rose (D.view disk.old).faults (D.view disk.new).faults }
    ensures bad { (file : File) (slot : ℕ) → IsErrOf result (Fault.Bad file slot)
        → IsTrue (D.view disk.old).tells
        → (former : Former) (image : Content) (now : Progress) (left : Key → Bool)
        → Copying former image now left (D.view disk.old) backup.old → ⊥ }
    ensures copied { OnOk result (IsTrue (D.view disk.old).tells
        → (former : Former) (image : Content) (now : Progress) (left : Page → Bool)
        → AreBehind page left
        → Copying former image now (from_line left page 0) (D.view disk.old) backup.old
        → Copying former image now (on_pages left) (D.view disk.new) backup.new) }
    ensures stopped { IsTrue (D.view disk.old).tells
        → (former : Former) (image : Content) (now : Progress) (left : Page → Bool)
        → AreBehind page left
        → Copying former image now (from_line left page 0) (D.view disk.old) backup.old
        → LeavesOnly (D.view disk.old) (D.view disk.new) (IsStopped now backup.old.number) }
    ensures others { IsTrue (D.view disk.old).tells
        → (file : File) → file ≢ file_of backup.old.number
        → KeepsFile file (D.view disk.old) (D.view disk.new) }
{
    let Some(file) = storage_area(page.area) else {
        unreachable!()
    };
    let mut bytes = [0; 1024];
    disk.read(area_file(file), slot_of(page.page), &mut bytes)?;
    match read_head(&bytes, file, page.page) {
        Ok(None) => Ok(()),
        Ok(Some(head)) => copy_owned(disk, &bytes, file, page.area, head, backup),
        Err(_) => Err(Fault::Bad(area_file(file), slot_of(page.page))),
    }
}

/// Copies the present lines of these pages to an open backup, in the order of their Dbkeys. It makes a read for each page, and a write for each line.
pub fn copy_all<D: Disk>(disk: &mut D, pages: UsedPages, backup: &mut Backup) -> Result<(), Fault>
    requires placed { ArePlaced pages }
    requires is_open { backup.old.stage ≡ Open }
    requires last_group { backup.old.last_group ≤ 2 ^ 62 }
    requires room { backup.old.lines + 4 * btree_set_len pages < 2 ^ 32 }
    ensures grown { OnOk result (IsGrown backup.old backup.new (4 * btree_set_len pages)) }
    ensures told { (D.view disk.new).tells ≡ (D.view disk.old).tells }
    ensures no_fewer { (D.view disk.old).faults ≤ (D.view disk.new).faults }

    // It doesn't give up by itself, and is refused only where a page fails its decoder.
    ensures failed { IsErrOf result Fault.Failed
        → Rose (D.view disk.old).faults (D.view disk.new).faults }
    ensures bad { (file : File) (slot : ℕ) → IsErrOf result (Fault.Bad file slot)
        → IsTrue (D.view disk.old).tells
        → (former : Former) (image : Content) (now : Progress)
        → Copying former image now (on_pages (contains page_order pages)) (D.view disk.old) backup.old → ⊥ }

    // Nothing is left.
    ensures copied { OnOk result (IsTrue (D.view disk.old).tells
        → (former : Former) (image : Content) (now : Progress)
        → Copying former image now (on_pages (contains page_order pages)) (D.view disk.old) backup.old
        → Copying former image now (λ key. false) (D.view disk.new) backup.new) }

    // Whatever it answers, a crash at any moment of it leaves the database as it was, and no backup.
    ensures stopped { IsTrue (D.view disk.old).tells
        → (former : Former) (image : Content) (now : Progress)
        → Copying former image now (on_pages (contains page_order pages)) (D.view disk.old) backup.old
        → LeavesOnly (D.view disk.old) (D.view disk.new) (IsStopped now backup.old.number) }

    // Each other file is as it was, at every moment.
    ensures others { IsTrue (D.view disk.old).tells
        → (file : File) → file ≢ file_of backup.old.number
        → KeepsFile file (D.view disk.old) (D.view disk.new) }
{
    let mut left = pages;
    while let Some(page) = left.pop_first() {
        copy_page(disk, page, backup)?;
    }
    Ok(())
}
