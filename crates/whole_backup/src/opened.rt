// A database opened and backed up.
ghost use Rattle.std.specs.Prelude.{◌≡◌, ◌≢◌, ◌≤◌, ℕ, OnOk, IsErrOf, IsTrue};
ghost use Rattle.rdb_types.specs.declared.file.FileId.{FileId as File};
ghost use Rattle.rdb_outside.specs.Causes.{Rose};
ghost use Rattle.rdb_outside.specs.Disk.{LeavesOnly, LeftNow, Image as Content};
ghost use Rattle.backup_making.specs.Making.{file_of, Former};
ghost use Rattle.line_view.specs.Knowledge.{Lines};
ghost use Rattle.stable_lines.specs.Journal.{Journal, next_number};
ghost use Rattle.stable_lines.specs.Kept.{Kept};
ghost use Rattle.database_opening.specs.Others.{IsOther, KeepsFile};
ghost use Rattle.whole_backup.specs.BackedUp.{IsNumbered, HasBackup, MightHold, WithinWhole};

use crate::whole::back_up;
use database_opening::open_database;
use line_opening::OpeningFault;
use rdb_outside::Disk;
use std::alloc::Global;

/// Opens a database, whatever a crash left of it, and writes its backup of this number.
pub fn open_and_back_up<D: Disk>(
    alloc: Global,
    disk: &mut D,
    number: u32,
) -> Result<(), OpeningFault>
    // It doesn't give up by itself.
    ensures told { (D.view disk.new).tells ≡ (D.view disk.old).tells }
    ensures no_fewer { (D.view disk.old).faults ≤ (D.view disk.new).faults }
    ensures failed { IsErrOf result OpeningFault.Failed
        → Rose (D.view disk.old).faults (D.view disk.new).faults }

    // A kept image is never refused, as long as its groups have numbers.
    ensures bad { (file : File) (slot : ℕ) → IsErrOf result (OpeningFault.Bad file slot)
        → IsTrue (D.view disk.old).tells → (classes : ℕ → ℕ) (lines : Lines) (journal : Journal)
        → Kept classes lines journal (D.view disk.old).content
        → IsNumbered (next_number journal) → ⊥ }

    // Each image that a crash may leave then has the backup of the lines that the image stood for.
    ensures backed_up { OnOk result (IsTrue (D.view disk.old).tells
        → (classes : ℕ → ℕ) (lines : Lines) (journal : Journal)
        → Kept classes lines journal (D.view disk.old).content
        → (image : Content) → LeftNow (D.view disk.new) image → HasBackup classes lines number image) }

    // Whatever it answers, a crash at any moment of it leaves what one before might have left, or the database with these lines, and the backup that stood before, none, or the new one.
    ensures within { IsTrue (D.view disk.old).tells
        → (classes : ℕ → ℕ) (lines : Lines) (journal : Journal)
        → Kept classes lines journal (D.view disk.old).content
        → (former : Former) → MightHold former (D.view disk.old) number
        → LeavesOnly (D.view disk.old) (D.view disk.new)
        (WithinWhole (D.view disk.old) classes lines former number) }

    // Whatever it answers, the root, the after-image journal and the other backups are as they were, at every moment.
    ensures others { IsTrue (D.view disk.old).tells
        → (file : File) → IsOther file → file ≢ file_of number
        → KeepsFile file (D.view disk.old) (D.view disk.new) }
{
    let start = open_database(disk)?;
    back_up(alloc, disk, &start, number)
}
