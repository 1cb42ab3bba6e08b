// The root, and the groups of the after-image journal.
ghost use Rattle.std.specs.Prelude.{◌≡◌, length, IfOk, IsErrOf, IsTrue, ℕ};
ghost use Rattle.rdb_types.specs.declared.file.FileId.{FileId as File};
ghost use Rattle.rdb_outside.specs.Causes.{Rose};
ghost use Rattle.rdb_outside.specs.Disk.{OnlyReads};
ghost use Rattle.root_file.specs.declared.Root.{Root as RootSaid};
ghost use Rattle.root_file.specs.Root.{IsRoot};
ghost use Rattle.new_database.specs.Maker.{root_file as root_named};
ghost use Rattle.stable_lines.specs.Journal.{Journal, IsJournalOf};

use journal_reading::first_number;
use line_moves::{aij_file, root_file};
use line_opening::{OpeningFault, find_open};
use rdb_outside::Disk;
use root_file::{Root, read_root};

/// The root of a database.
pub fn root_of<D: Disk>(disk: &mut D) -> Result<Root, OpeningFault>
    ensures root { IfOk result (λ root. IsTrue (D.view disk.old).tells
        → IsRoot ((D.view disk.old).content root_named 0) root) }

    // It is refused only where the slot is none.
    ensures bad { (file : File) (slot : ℕ) → IsErrOf result (OpeningFault.Bad file slot)
        → IsTrue (D.view disk.old).tells
        → (root : RootSaid) → IsRoot ((D.view disk.old).content root_named 0) root → ⊥ }
    ensures failed { IsErrOf result OpeningFault.Failed
        → Rose (D.view disk.old).faults (D.view disk.new).faults }

    // Whatever it answers.
    ensures reads { OnlyReads (D.view disk.old) (D.view disk.new) }
{
    let mut slot = [0; 1024];
    disk.read(root_file(), 0, &mut slot)?;
    match read_root(&slot) {
        Ok(root) => Ok(root),
        Err(_) => Err(OpeningFault::Bad(root_file(), 0)),
    }
}

/// How many whole groups the after-image journal has. One group is in memory at a time.
pub fn count_groups<D: Disk>(disk: &mut D) -> Result<u64, OpeningFault>
    ensures count { IfOk result (λ count. IsTrue (D.view disk.old).tells
        → (journal : Journal) → IsJournalOf (D.view disk.old).content journal
        → count ≡ length journal.groups) }

    // It is refused only where slot 0 is no header.
    ensures bad { (file : File) (slot : ℕ) → IsErrOf result (OpeningFault.Bad file slot)
        → IsTrue (D.view disk.old).tells
        → (journal : Journal) → IsJournalOf (D.view disk.old).content journal → ⊥ }
    ensures failed { IsErrOf result OpeningFault.Failed
        → Rose (D.view disk.old).faults (D.view disk.new).faults }

    // Whatever it answers.
    ensures reads { OnlyReads (D.view disk.old) (D.view disk.new) }
{
    let first = first_number(disk, aij_file())?;
    let next = find_open(disk, &mut [])?;
    Ok(next.number.saturating_sub(first))
}
