// The slots of the journal are copied.
ghost use Rattle.std.specs.Prelude.{◌≡◌, ◌≢◌, ◌≤◌, ◌<◌, ℕ, OnOk, IsErr, IsTrue};
ghost use Rattle.rdb_types.specs.declared.file.FileId.{FileId as File};
ghost use Rattle.rdb_outside.specs.Causes.{Rose};
ghost use Rattle.rdb_outside.specs.Disk.{IsStable, LeavesOnly, Pending, zeros};
ghost use Rattle.new_database.specs.Maker.{aij_file as aij_named};
ghost use Rattle.line_moves.specs.Calls.{OnlyWrites};
ghost use Rattle.stable_lines.specs.Progress.{Progress};
ghost use Rattle.stable_lines.specs.Facts.{Facts, StandsAs};
ghost use Rattle.database_opening.specs.Others.{KeepsFile};
ghost use Rattle.journal_backup.specs.Copied.{copy_named};

use line_moves::{aij_file, make_stable};
use rdb_outside::{Disk, Failed};
use rdb_types::{FileId, FileKind};

// The file of the copy of this number.
fn copy_file(number: u32) -> FileId
    ensures { result ≡ copy_named number }
{
    FileId {
        kind: FileKind::AijBackup,
        number,
    }
}

// Writes zeros into a slot of the copy: into the first one, so that it is none, or into the one behind the last, so that nothing of an older copy follows.
fn blank<D: Disk>(disk: &mut D, number: u32, slot: u32) -> Result<(), Failed>
    ensures failed { IsErr result → Rose (D.view disk.old).faults (D.view disk.new).faults }
    ensures writes { OnlyWrites (copy_named number) slot (D.view disk.old) (D.view disk.new) }
    ensures blanked { OnOk result (IsTrue (D.view disk.old).tells
        → (D.view disk.new).content (copy_named number) slot ≡ zeros (copy_named number)) }
{
    let bytes = [0; 512];
    disk.write(copy_file(number), slot, &bytes)
}

// Copies a slot of the journal.
fn copy_slot<D: Disk>(disk: &mut D, number: u32, slot: u32) -> Result<(), Failed>
    ensures failed { IsErr result → Rose (D.view disk.old).faults (D.view disk.new).faults }
    ensures writes { OnlyWrites (copy_named number) slot (D.view disk.old) (D.view disk.new) }
    ensures copied { OnOk result (IsTrue (D.view disk.old).tells
        → (D.view disk.new).content (copy_named number) slot ≡ (D.view disk.old).content aij_named slot) }
{
    let mut bytes = [0; 512];
    disk.read(aij_file(), slot, &mut bytes)?;
    disk.write(copy_file(number), slot, &bytes)
}

// Copies the slots of the journal behind its header, up to this one.
fn copy_slots<D: Disk>(disk: &mut D, number: u32, end: u32) -> Result<(), Failed>
    ensures told { (D.view disk.new).tells ≡ (D.view disk.old).tells }
    ensures no_fewer { (D.view disk.old).faults ≤ (D.view disk.new).faults }
    ensures failed { IsErr result → Rose (D.view disk.old).faults (D.view disk.new).faults }
    ensures copied { OnOk result (IsTrue (D.view disk.old).tells → (slot : ℕ) → 1 ≤ slot → slot < end
        → (D.view disk.new).content (copy_named number) slot ≡ (D.view disk.old).content aij_named slot) }
    ensures stands { IsTrue (D.view disk.old).tells → (now : Progress)
        → Facts (Pending (D.view disk.old)) now
        → LeavesOnly (D.view disk.old) (D.view disk.new) (StandsAs now) }
    ensures others { IsTrue (D.view disk.old).tells → (file : File) → file ≢ copy_named number
        → KeepsFile file (D.view disk.old) (D.view disk.new) }
{
    for slot in 1..end {
        copy_slot(disk, number, slot)?;
    }
    Ok(())
}

// Copies those slots, and writes zeros behind the last.
fn copy_groups<D: Disk>(disk: &mut D, number: u32, end: u32) -> Result<(), Failed>
    ensures told { (D.view disk.new).tells ≡ (D.view disk.old).tells }
    ensures no_fewer { (D.view disk.old).faults ≤ (D.view disk.new).faults }
    ensures failed { IsErr result → Rose (D.view disk.old).faults (D.view disk.new).faults }
    ensures copied { OnOk result (IsTrue (D.view disk.old).tells → (slot : ℕ) → 1 ≤ slot → slot < end
        → (D.view disk.new).content (copy_named number) slot ≡ (D.view disk.old).content aij_named slot) }
    ensures ended { OnOk result (IsTrue (D.view disk.old).tells
        → (D.view disk.new).content (copy_named number) end ≡ zeros (copy_named number)) }
    ensures stands { IsTrue (D.view disk.old).tells → (now : Progress)
        → Facts (Pending (D.view disk.old)) now
        → LeavesOnly (D.view disk.old) (D.view disk.new) (StandsAs now) }
    ensures others { IsTrue (D.view disk.old).tells → (file : File) → file ≢ copy_named number
        → KeepsFile file (D.view disk.old) (D.view disk.new) }
{
    copy_slots(disk, number, end)?;
    blank(disk, number, end)
}

/// Copies the journal up to this slot: first its copy is none, then it gets the slots with zeros behind them, and last the header, each behind a barrier.
pub(crate) fn copy_journal<D: Disk>(disk: &mut D, number: u32, end: u32) -> Result<(), Failed>
    ensures told { (D.view disk.new).tells ≡ (D.view disk.old).tells }
    ensures no_fewer { (D.view disk.old).faults ≤ (D.view disk.new).faults }
    ensures failed { IsErr result → Rose (D.view disk.old).faults (D.view disk.new).faults }
    ensures stable { OnOk result (IsTrue (D.view disk.old).tells → IsStable (D.view disk.new)) }
    ensures copied { OnOk result (IsTrue (D.view disk.old).tells → (slot : ℕ) → slot < end
        → (D.view disk.new).content (copy_named number) slot ≡ (D.view disk.old).content aij_named slot) }
    ensures ended { OnOk result (IsTrue (D.view disk.old).tells → 1 ≤ end
        → (D.view disk.new).content (copy_named number) end ≡ zeros (copy_named number)) }
    ensures stands { IsTrue (D.view disk.old).tells → (now : Progress)
        → Facts (Pending (D.view disk.old)) now
        → LeavesOnly (D.view disk.old) (D.view disk.new) (StandsAs now) }
    ensures others { IsTrue (D.view disk.old).tells → (file : File) → file ≢ copy_named number
        → KeepsFile file (D.view disk.old) (D.view disk.new) }
{
    blank(disk, number, 0)?;
    make_stable(disk)?;
    copy_groups(disk, number, end)?;
    make_stable(disk)?;
    copy_slot(disk, number, 0)?;
    make_stable(disk)
}
