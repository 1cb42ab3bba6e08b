// A backup from its beginning to its end.
ghost use Rattle.std.specs.Prelude.{◌≡◌, ◌≢◌, ◌≤◌, ◌+◌, ◌^◌, ℕ, IfSome, IfNone, OnOk, IsErrOf, IsTrue};
ghost use Rattle.rdb_types.specs.declared.file.FileId.{FileId as File};
ghost use Rattle.rdb_outside.specs.Causes.{Rose};
ghost use Rattle.rdb_outside.specs.Disk.{LeavesOnly, LeftNow, Image as Content};
ghost use Rattle.backup_making.specs.Making.{file_of, Former};
ghost use Rattle.line_view.specs.Knowledge.{Lines};
ghost use Rattle.stable_lines.specs.Journal.{Journal};
ghost use Rattle.database_opening.specs.Others.{KeepsFile};
ghost use Rattle.database_opening.specs.Start.{IsStart};
ghost use Rattle.whole_backup.specs.BackedUp.{IsNumbered, HasBackup, MightHold, WithinBackup};

use crate::steps::{begin_backup, end_backup};
use copied_lines::copy_all;
use database_opening::StoreStart;
use line_moves::aij_file;
use line_opening::OpeningFault;
use rdb_outside::Disk;
use std::alloc::Global;
use used_pages::used_pages;

// The number of the last group, where one comes next.
fn last_group(start: &StoreStart) -> Option<u64>
    ensures next { IfSome result (λ last. last + 1 ≡ start.now.next.number) }
    ensures allowed { IfSome result (λ last. last ≤ 2 ^ 62) }
    ensures none { IfNone result (IsNumbered start.now.next.number → ⊥) }
{
    let number = start.next.number;
    if number == 0 || number > 1 << 62 {
        return None;
    }
    Some(number - 1)
}

/// Writes the backup of this number of a database that was opened. It reads each data page twice at most and writes a slot for each line, with one page in memory at a time, and some 20 bytes for each page that is used.
pub fn back_up<D: Disk>(
    alloc: Global,
    disk: &mut D,
    start: &StoreStart,
    number: u32,
) -> Result<(), OpeningFault>
    // It doesn't give up by itself.
    ensures told { (D.view disk.new).tells ≡ (D.view disk.old).tells }
    ensures no_fewer { (D.view disk.old).faults ≤ (D.view disk.new).faults }
    ensures failed { IsErrOf result OpeningFault.Failed
        → Rose (D.view disk.old).faults (D.view disk.new).faults }

    // An opened database is never refused, as long as its groups have numbers.
    ensures bad { (file : File) (slot : ℕ) → IsErrOf result (OpeningFault.Bad file slot)
        → IsTrue (D.view disk.old).tells → (classes : ℕ → ℕ) (lines : Lines) (journal : Journal)
        → IsStart classes lines journal (D.view disk.old) start.now
        → IsNumbered start.now.next.number → ⊥ }

    // Each image that a crash may leave then has the backup of the lines that the database stands for.
    ensures backed_up { OnOk result (IsTrue (D.view disk.old).tells
        → (classes : ℕ → ℕ) (lines : Lines) (journal : Journal)
        → IsStart classes lines journal (D.view disk.old) start.now
        → (image : Content) → LeftNow (D.view disk.new) image → HasBackup classes lines number image) }

    // Whatever it answers, a crash at any moment of it leaves the database with these lines, and the backup that stood before, none, or the new one.
    ensures within { IsTrue (D.view disk.old).tells
        → (classes : ℕ → ℕ) (lines : Lines) (journal : Journal)
        → IsStart classes lines journal (D.view disk.old) start.now
        → (former : Former) → MightHold former (D.view disk.old) number
        → LeavesOnly (D.view disk.old) (D.view disk.new) (WithinBackup classes lines former number) }

    // Whatever it answers, each other file is as it was, at every moment: the database's own files and the other backups.
    ensures others { IsTrue (D.view disk.old).tells → (file : File) → file ≢ file_of number
        → KeepsFile file (D.view disk.old) (D.view disk.new) }
{
    let Some(last) = last_group(start) else {
        return Err(OpeningFault::Bad(aij_file(), 0));
    };
    let pages = used_pages(alloc, disk)?;
    let mut backup = begin_backup(disk, number, start.root.limits, last)?;
    copy_all(disk, pages, &mut backup)?;
    end_backup(disk, &mut backup)?;
    Ok(())
}
