// The lines of a backup, one behind another.
ghost use Rattle.std.specs.Prelude.{◌≡◌, ◌≤◌, ◌∷◌, ◌++◌, [], ℕ, List, OnOk, IsErrOf, IsTrue};
ghost use Rattle.rdb_types.specs.declared.file.FileId.{FileId as File};
ghost use Rattle.rdb_outside.specs.Causes.{Rose};
ghost use Rattle.stable_lines.specs.Kept.{IsWellFormed};
ghost use Rattle.line_moves.specs.Changes.{IsPlaceOf};
ghost use Rattle.backup_file.specs.declared.header.BackupHead.{BackupHead as Head};
ghost use Rattle.backup_file.specs.declared.line.BackupLine.{BackupLine as Copied};
ghost use Rattle.backup_file.specs.Line.{IsAllowed, IsBackupLine};
ghost use Rattle.backup_making.specs.Making.{file_of};
ghost use Rattle.backup_reading.specs.Reading.{IsBackupOf};
ghost use Rattle.guarded_lines.specs.Laying.{IsArea, HasRoom, page_of, Lays};
ghost use Rattle.guarded_root.specs.Guarded.{RunsBehind};
ghost use Rattle.rmu_restore.specs.Laying.{line_of as line_in_backup, HasLaid, MayJoin, AreUpTo};

use backup_file::BackupLine;
use backup_reading::{backup_file, read_backup_line};
use guarded_lines::lay_line;
use line_moves::{Place, place_of};
use line_store::Fault;
use rdb_outside::Disk;
use rdb_types::{Line, LineState};

// The line as it is laid.
fn line_of(copy: BackupLine) -> Line
    ensures { result ≡ line_in_backup copy }
{
    Line {
        state: LineState::Present,
        tsn: copy.tsn,
        chain: 0,
        image: copy.image,
    }
}

// Lays a line at its place.
fn lay_copy<D: Disk>(disk: &mut D, copy: BackupLine, place: Place) -> Result<(), Fault>
    requires place { IsPlaceOf copy.key place }
    requires allowed { IsAllowed copy }
    ensures failed { IsErrOf result Fault.Failed
        → Rose (D.view disk.old).faults (D.view disk.new).faults }
    ensures bad { (file : File) (slot : ℕ) → IsErrOf result (Fault.Bad file slot)
        → IsTrue (D.view disk.old).tells → (pages : ℕ) → IsWellFormed (D.view disk.old).content pages
        → HasRoom copy.key copy.class (page_of (D.view disk.old).content copy.key) → ⊥ }
    ensures laid { OnOk result (IsTrue (D.view disk.old).tells
        → (pages : ℕ) → IsWellFormed (D.view disk.old).content pages → copy.key.page ≤ pages
        → HasRoom copy.key copy.class (page_of (D.view disk.old).content copy.key)
        → Lays pages copy.key copy.class (line_in_backup copy) (D.view disk.old).content (D.view disk.new).content) }
    ensures runs { RunsBehind IsArea (D.view disk.old) (D.view disk.new) }
{
    let key = copy.key;
    let class = copy.class;
    let line = line_of(copy);
    lay_line(disk, key, place, class, &line)
}

// Lays the line in this slot of the backup.
fn lay_slot<D: Disk>(disk: &mut D, number: u32, slot: u32) -> Result<(), Fault>
    ensures failed { IsErrOf result Fault.Failed
        → Rose (D.view disk.old).faults (D.view disk.new).faults }
    ensures bad { (file : File) (at : ℕ) → IsErrOf result (Fault.Bad file at)
        → IsTrue (D.view disk.old).tells → (pages greatest : ℕ) (lines : List Copied) (line : Copied)
        → HasLaid pages greatest lines (D.view disk.old).content → MayJoin pages lines line
        → IsBackupLine ((D.view disk.old).content (file_of number) slot) slot line → ⊥ }
    ensures laid { OnOk result (IsTrue (D.view disk.old).tells
        → (pages greatest : ℕ) (lines : List Copied) (line : Copied)
        → HasLaid pages greatest lines (D.view disk.old).content → MayJoin pages lines line
        → line.tsn.number ≤ greatest
        → IsBackupLine ((D.view disk.old).content (file_of number) slot) slot line
        → HasLaid pages greatest (lines ++ line ∷ []) (D.view disk.new).content) }
    ensures runs { RunsBehind IsArea (D.view disk.old) (D.view disk.new) }
{
    let copy = read_backup_line(disk, number, slot)?;
    let Some(place) = place_of(copy.key) else {
        return Err(Fault::Bad(backup_file(number), slot));
    };
    lay_copy(disk, copy, place)
}

/// Lays so many lines of the backup on pages that were never used. Each slot is read once, and for each line its page and its space page are read and written once.
pub(crate) fn lay_all<D: Disk>(disk: &mut D, number: u32, count: u32) -> Result<(), Fault>
    ensures failed { IsErrOf result Fault.Failed
        → Rose (D.view disk.old).faults (D.view disk.new).faults }
    ensures bad { (file : File) (at : ℕ) → IsErrOf result (Fault.Bad file at)
        → IsTrue (D.view disk.old).tells → (greatest : ℕ) (head : Head) (lines : List Copied)
        → IsBackupOf (D.view disk.old).content number head lines → count ≡ head.lines
        → AreUpTo greatest lines
        → HasLaid head.limits.pages greatest [] (D.view disk.old).content → ⊥ }
    ensures laid { OnOk result (IsTrue (D.view disk.old).tells
        → (greatest : ℕ) (head : Head) (lines : List Copied)
        → IsBackupOf (D.view disk.old).content number head lines → count ≡ head.lines
        → AreUpTo greatest lines
        → HasLaid head.limits.pages greatest [] (D.view disk.old).content
        → HasLaid head.limits.pages greatest lines (D.view disk.new).content) }
    ensures runs { RunsBehind IsArea (D.view disk.old) (D.view disk.new) }
{
    for index in 0..count {
        lay_slot(disk, number, index + 1)?;
    }
    Ok(())
}
