// The transactions that are open.
ghost use Rattle.std.specs.Prelude.{◌≡◌, ℕ, IfOk, IsErrOf, IsTrue};
ghost use Rattle.rdb_types.specs.declared.file.FileId.{FileId as File};
ghost use Rattle.rdb_outside.specs.Causes.{Rose};
ghost use Rattle.rdb_outside.specs.Disk.{OnlyReads};
ghost use Rattle.stable_lines.specs.Slots.{IsMember, ruj_file as ruj_named};
ghost use Rattle.stable_lines.specs.Kept.{IsRujHeader};
ghost use Rattle.stable_lines.specs.Journal.{Journal, IsJournalOf};
ghost use Rattle.before_images.specs.Open.{AreOpen};

use line_opening::{OpeningFault, all_named, find_open};
use rdb_outside::Disk;

// The transactions that the members' headers name and that have no whole group, the first member's in place 0, and 0 where a member has none.
pub fn read_open<D: Disk>(disk: &mut D) -> Result<[u64; 16], OpeningFault>
    ensures open { IfOk result (λ numbers. IsTrue (D.view disk.old).tells
        → (journal : Journal) → IsJournalOf (D.view disk.old).content journal
        → AreOpen (D.view disk.old).content journal.groups numbers) }
    ensures failed { IsErrOf result OpeningFault.Failed
        → Rose (D.view disk.old).faults (D.view disk.new).faults }
    ensures bad { (file : File) (slot : ℕ) → IsErrOf result (OpeningFault.Bad file slot)
        → IsTrue (D.view disk.old).tells
        → ((member : ℕ) → IsMember member → IsRujHeader ((D.view disk.old).content (ruj_named member) 0))
        → (journal : Journal) → IsJournalOf (D.view disk.old).content journal → ⊥ }
    ensures reads { OnlyReads (D.view disk.old) (D.view disk.new) }
{
    let mut numbers = all_named(disk)?;
    let _next = find_open(disk, &mut numbers)?;
    Ok(numbers)
}
