// The journal is emptied behind its copy.
ghost use Rattle.std.specs.Prelude.{◌≡◌, ◌≤◌, ◌<◌, ◌^◌, ℕ, OnOk, IsErrOf, IsTrue};
ghost use Rattle.rdb_types.specs.declared.file.FileId.{FileId as File};
ghost use Rattle.rdb_outside.specs.Causes.{Rose};
ghost use Rattle.rdb_outside.specs.Disk.{LeavesOnly, LeftNow, Image as Content};
ghost use Rattle.line_view.specs.Knowledge.{Lines};
ghost use Rattle.stable_lines.specs.Journal.{Journal};
ghost use Rattle.database_opening.specs.Others.{KeepsFile};
ghost use Rattle.database_opening.specs.Start.{IsStart};
ghost use Rattle.journal_backup.specs.Copied.{HasEachGroup, IsBackedUp, IsAside};

use crate::copying::copy_journal;
use database_opening::StoreStart;
use journal_anew::begin_anew;
use line_moves::aij_file;
use line_store::Fault;
use rdb_outside::Disk;

/// Copies the after-image journal of a database that was opened, and begins it anew. A journal without groups is left as it is, and so is a copy of that number: given again behind a stop it doesn't empty the only copy.
pub fn back_up_journal<D: Disk>(disk: &mut D, start: &StoreStart, number: u32) -> Result<(), Fault>
    ensures told { (D.view disk.new).tells ≡ (D.view disk.old).tells }
    ensures no_fewer { (D.view disk.old).faults ≤ (D.view disk.new).faults }
    ensures failed { IsErrOf result Fault.Failed
        → Rose (D.view disk.old).faults (D.view disk.new).faults }

    // It is refused only where the numbers of groups are spent.
    ensures bad { (file : File) (slot : ℕ) → IsErrOf result (Fault.Bad file slot)
        → 2 ^ 62 < start.now.next.number }

    // Then each image has the groups in the copy, and the journal is empty at the next number.
    ensures backed_up { OnOk result (IsTrue (D.view disk.old).tells
        → (classes : ℕ → ℕ) (lines : Lines) (journal : Journal)
        → IsStart classes lines journal (D.view disk.old) start.now
        → (image : Content) → LeftNow (D.view disk.new) image
        → IsBackedUp classes lines journal number image) }

    // Whatever it answers, a crash at any moment of it leaves the same lines, and each group in the journal or in its copy.
    ensures within { IsTrue (D.view disk.old).tells
        → (classes : ℕ → ℕ) (lines : Lines) (journal : Journal)
        → IsStart classes lines journal (D.view disk.old) start.now
        → LeavesOnly (D.view disk.old) (D.view disk.new) (HasEachGroup classes lines journal number) }

    // Each other file is as it was, at every moment.
    ensures others { IsTrue (D.view disk.old).tells → (file : File) → IsAside number file
        → KeepsFile file (D.view disk.old) (D.view disk.new) }
{
    let next = start.next;
    if next.slot <= 1 {
        return Ok(());
    }
    if next.number > 1 << 62 {
        return Err(Fault::Bad(aij_file(), 0));
    }
    copy_journal(disk, number, next.slot)?;
    begin_anew(disk, next.number)?;
    Ok(())
}
