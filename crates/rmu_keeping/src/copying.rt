// RMU/BACKUP/AFTER_JOURNAL.
ghost use Rattle.std.specs.Prelude.{◌≡◌, ◌≢◌, ◌≤◌, ℕ, true, OnOk, IsErrOf, IsTrue};
ghost use Rattle.rdb_types.specs.declared.file.FileId.{FileId as File};
ghost use Rattle.rdb_outside.specs.Causes.{Rose};
ghost use Rattle.rdb_outside.specs.Disk.{LeavesOnly, LeftNow, Image as Content};
ghost use Rattle.line_view.specs.Knowledge.{Lines};
ghost use Rattle.stable_lines.specs.Journal.{Journal};
ghost use Rattle.stable_lines.specs.Kept.{Kept};
ghost use Rattle.database_opening.specs.Others.{KeepsFile};
ghost use Rattle.journal_backup.specs.Copied.{copy_named};
ghost use Rattle.rmu_keeping.specs.Keeping.{is_keeping_status, HasNumbers, HasCopiedJournal, WithinCopying, MayBeOpened, CopiesJournal, CopiesJournalWithin, IsKept};

use crate::opening::open_in_use;
use crate::statuses::status_of;
use journal_backup::back_up_journal;
use line_opening::OpeningFault;
use rdb_outside::Disk;

// The journal of a database that is opened and taken into use, copied and emptied.
fn open_and_copy<D: Disk>(disk: &mut D, number: u32) -> Result<(), OpeningFault>
    ensures told { (D.view disk.new).tells ≡ (D.view disk.old).tells }
    ensures no_fewer { (D.view disk.old).faults ≤ (D.view disk.new).faults }
    ensures failed { IsErrOf result OpeningFault.Failed
        → Rose (D.view disk.old).faults (D.view disk.new).faults }
    ensures bad { (file : File) (slot : ℕ) → IsErrOf result (OpeningFault.Bad file slot)
        → IsTrue (D.view disk.old).tells → (classes : ℕ → ℕ) (lines : Lines) (journal : Journal)
        → Kept classes lines journal (D.view disk.old).content → HasNumbers journal → ⊥ }
    ensures copied { OnOk result (IsTrue (D.view disk.old).tells
        → (classes : ℕ → ℕ) (lines : Lines) (journal : Journal)
        → Kept classes lines journal (D.view disk.old).content
        → (image : Content) → LeftNow (D.view disk.new) image
        → HasCopiedJournal classes lines journal number image) }
    ensures within { IsTrue (D.view disk.old).tells → (classes : ℕ → ℕ) (lines : Lines) (journal : Journal)
        → Kept classes lines journal (D.view disk.old).content
        → LeavesOnly (D.view disk.old) (D.view disk.new)
        (WithinCopying (D.view disk.old) classes lines journal number) }
    ensures others { IsTrue (D.view disk.old).tells
        → (file : File) → IsKept file → file ≢ copy_named number
        → KeepsFile file (D.view disk.old) (D.view disk.new) }
{
    let start = open_in_use(disk)?;
    back_up_journal(disk, &start, number)?;
    Ok(())
}

/// `RMU/BACKUP/AFTER_JOURNAL`: opens the database, takes it into use, copies its after-image journal into the copy of this number and empties it. It writes no text.
pub fn journal_command<D: Disk>(disk: &mut D, number: u32) -> u8
    ensures status { is_keeping_status result ≡ true }

    // The groups are in the copy, and the journal is empty at the next number; or there was none.
    ensures copied { result ≡ 0 → IsTrue (D.view disk.old).tells
        → CopiesJournal (D.view disk.old) (D.view disk.new) number }

    // A device call failed.
    ensures device { result ≡ 3 → Rose (D.view disk.old).faults (D.view disk.new).faults }

    // There is no database in use, or the numbers of its groups are spent.
    ensures refused { result ≡ 4 → IsTrue (D.view disk.old).tells
        → MayBeOpened (D.view disk.old).content → ⊥ }

    // Whatever it answers, a crash at any moment of it leaves the database with its lines, and each group in the journal or in its copy.
    ensures within { IsTrue (D.view disk.old).tells
        → CopiesJournalWithin (D.view disk.old) (D.view disk.new) number }

    // Whatever it answers, the backups and the other copies of the journal are as they were, at every moment.
    ensures others { IsTrue (D.view disk.old).tells
        → (file : File) → IsKept file → file ≢ copy_named number
        → KeepsFile file (D.view disk.old) (D.view disk.new) }
{
    match open_and_copy(disk, number) {
        Ok(()) => 0,
        Err(fault) => status_of(fault),
    }
}
