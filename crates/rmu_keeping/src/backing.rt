// RMU/BACKUP.
ghost use Rattle.std.specs.Prelude.{◌≡◌, ◌≢◌, ◌≤◌, ℕ, true, OnOk, IsErrOf, IsTrue};
ghost use Rattle.rdb_types.specs.declared.file.FileId.{FileId as File};
ghost use Rattle.rdb_outside.specs.Causes.{Rose};
ghost use Rattle.rdb_outside.specs.Disk.{LeavesOnly, LeftNow, Image as Content};
ghost use Rattle.backup_making.specs.Making.{file_of, Former};
ghost use Rattle.line_view.specs.Knowledge.{Lines};
ghost use Rattle.stable_lines.specs.Journal.{Journal};
ghost use Rattle.stable_lines.specs.Kept.{Kept};
ghost use Rattle.database_opening.specs.Others.{KeepsFile};
ghost use Rattle.whole_backup.specs.BackedUp.{HasBackup, MightHold, WithinWhole};
ghost use Rattle.rmu_keeping.specs.Keeping.{is_keeping_status, HasNumbers, MayBeOpened, BacksUp, BacksUpWithin, IsKept};

use crate::opening::open_in_use;
use crate::statuses::status_of;
use line_opening::OpeningFault;
use rdb_outside::Disk;
use std::alloc::Global;
use whole_backup::back_up;

// The backup of a database that is opened and taken into use.
fn open_and_back_up<D: Disk>(alloc: Global, disk: &mut D, number: u32) -> Result<(), OpeningFault>
    ensures told { (D.view disk.new).tells ≡ (D.view disk.old).tells }
    ensures no_fewer { (D.view disk.old).faults ≤ (D.view disk.new).faults }
    ensures failed { IsErrOf result OpeningFault.Failed
        → Rose (D.view disk.old).faults (D.view disk.new).faults }
    ensures bad { (file : File) (slot : ℕ) → IsErrOf result (OpeningFault.Bad file slot)
        → IsTrue (D.view disk.old).tells → (classes : ℕ → ℕ) (lines : Lines) (journal : Journal)
        → Kept classes lines journal (D.view disk.old).content → HasNumbers journal → ⊥ }
    ensures backed_up { OnOk result (IsTrue (D.view disk.old).tells
        → (classes : ℕ → ℕ) (lines : Lines) (journal : Journal)
        → Kept classes lines journal (D.view disk.old).content
        → (image : Content) → LeftNow (D.view disk.new) image → HasBackup classes lines number image) }
    ensures within { IsTrue (D.view disk.old).tells → (classes : ℕ → ℕ) (lines : Lines) (journal : Journal)
        → Kept classes lines journal (D.view disk.old).content
        → (former : Former) → MightHold former (D.view disk.old) number
        → LeavesOnly (D.view disk.old) (D.view disk.new)
        (WithinWhole (D.view disk.old) classes lines former number) }
    ensures others { IsTrue (D.view disk.old).tells
        → (file : File) → IsKept file → file ≢ file_of number
        → KeepsFile file (D.view disk.old) (D.view disk.new) }
{
    let start = open_in_use(disk)?;
    back_up(alloc, disk, &start, number)
}

/// `RMU/BACKUP`: opens the database, takes it into use and writes its backup of this number. It writes no text.
pub fn backup_command<D: Disk>(alloc: Global, disk: &mut D, number: u32) -> u8
    ensures status { is_keeping_status result ≡ true }

    // The backup is whole, with the lines of the database, and rolled forward it gives them.
    ensures backed_up { result ≡ 0 → IsTrue (D.view disk.old).tells
        → BacksUp (D.view disk.old) (D.view disk.new) number }

    // A device call failed.
    ensures device { result ≡ 3 → Rose (D.view disk.old).faults (D.view disk.new).faults }

    // There is no database in use, or the numbers of its groups are spent.
    ensures refused { result ≡ 4 → IsTrue (D.view disk.old).tells
        → MayBeOpened (D.view disk.old).content → ⊥ }

    // Whatever it answers, a crash at any moment of it leaves the database with its lines, and the backup that stood before, none, or the new one.
    ensures within { IsTrue (D.view disk.old).tells
        → BacksUpWithin (D.view disk.old) (D.view disk.new) number }

    // Whatever it answers, the other backups and the copies of the journal are as they were, at every moment.
    ensures others { IsTrue (D.view disk.old).tells
        → (file : File) → IsKept file → file ≢ file_of number
        → KeepsFile file (D.view disk.old) (D.view disk.new) }
{
    match open_and_back_up(alloc, disk, number) {
        Ok(()) => 0,
        Err(fault) => status_of(fault),
    }
}
