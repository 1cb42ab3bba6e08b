// RMU/RESTORE.
ghost use Rattle.std.specs.Prelude.{◌≡◌, true, IsTrue};
ghost use Rattle.rdb_types.specs.declared.file.FileId.{FileId as File};
ghost use Rattle.rdb_outside.specs.Causes.{Rose};
ghost use Rattle.database_opening.specs.Others.{KeepsFile};
ghost use Rattle.rmu_restore.specs.Laying.{IsOther};
ghost use Rattle.rmu_keeping.specs.Keeping.{is_keeping_status, MayBeRestored, Restores, RestoresWithin};

use crate::statuses::status_of;
use rdb_outside::Disk;
use rmu_restore::restore;
use std::alloc::Global;

/// `RMU/RESTORE`: makes the database anew as the backup of this number has it. It takes any root, also a lost one, and writes no text.
pub fn restore_command<D: Disk>(alloc: Global, disk: &mut D, number: u32) -> u8
    ensures status { is_keeping_status result ≡ true }

    // The database stands for the lines of the backup, restored and not yet used.
    ensures restored { result ≡ 0 → IsTrue (D.view disk.old).tells
        → Restores (D.view disk.old) (D.view disk.new) number }

    // A device call failed.
    ensures device { result ≡ 3 → Rose (D.view disk.old).faults (D.view disk.new).faults }

    // The backup isn't whole, or the after-image journal has no header.
    ensures refused { result ≡ 4 → IsTrue (D.view disk.old).tells
        → MayBeRestored (D.view disk.old).content number → ⊥ }

    // Whatever it answers, a crash at any moment of it leaves what one before might have left, an unfinished restore, or the restored database.
    ensures within { IsTrue (D.view disk.old).tells
        → RestoresWithin (D.view disk.old) (D.view disk.new) number }

    // Whatever it answers, the after-image journal, its copies and the backups are as they were, at every moment.
    ensures others { IsTrue (D.view disk.old).tells → (file : File) → IsOther file
        → KeepsFile file (D.view disk.old) (D.view disk.new) }
{
    match restore(alloc, disk, number) {
        Ok(()) => 0,
        Err(fault) => status_of(fault),
    }
}
