// The greatest transaction number of the after-image journal.
ghost use Rattle.std.specs.Prelude.{◌≡◌, ◌≤◌, ◌<◌, ◌^◌, ℕ, IfOk, IsErrOf, IsTrue};
ghost use Rattle.rdb_types.specs.declared.file.FileId.{FileId as File};
ghost use Rattle.rdb_outside.specs.Causes.{Rose};
ghost use Rattle.rdb_outside.specs.Disk.{OnlyReads};
ghost use Rattle.aij_journal.specs.Header.{IsHeader};
ghost use Rattle.journal_reading.specs.Journal.{EndsBy};
ghost use Rattle.new_database.specs.Maker.{aij_file as aij_named};
ghost use Rattle.stable_lines.specs.Journal.{Journal, IsJournalOf};
ghost use Rattle.rmu_restore.specs.Restored.{HaveUpTo};

use aij_journal::read_header;
use journal_passing::pass_group;
use line_moves::aij_file;
use line_store::Fault;
use rdb_outside::Disk;

/// The greater of two numbers.
pub(crate) fn greater(a: u64, b: u64) -> u64
    ensures first { a ≤ result }
    ensures second { b ≤ result }
    ensures bound { (bound : ℕ) → a < bound → b < bound → result < bound }
{
    if a < b { b } else { a }
}

// The number of the first group, which the header says.
fn first_number<D: Disk>(disk: &mut D) -> Result<u64, Fault>
    ensures reads { OnlyReads (D.view disk.old) (D.view disk.new) }
    ensures failed { IsErrOf result Fault.Failed
        → Rose (D.view disk.old).faults (D.view disk.new).faults }
    ensures header { IfOk result (λ first. IsTrue (D.view disk.old).tells
        → IsHeader ((D.view disk.old).content aij_named 0) first) }
    ensures few { IfOk result (λ first. first ≤ 2 ^ 62) }
    ensures bad { (file : File) (slot : ℕ) → IsErrOf result (Fault.Bad file slot)
        → IsTrue (D.view disk.old).tells → (first : ℕ)
        → IsHeader ((D.view disk.old).content aij_named 0) first → ⊥ }
{
    let journal = aij_file();
    let mut bytes = [0; 512];
    disk.read(journal, 0, &mut bytes)?;
    match read_header(&bytes) {
        Some(first) => Ok(first),
        None => Err(Fault::Bad(journal, 0)),
    }
}

// Goes over the groups, up to the slot from which on the file is zeros.
fn greatest_behind<D: Disk>(disk: &mut D, end: u32, first: u64) -> Result<u64, Fault>
    requires { first ≤ 2 ^ 62 }
    ensures reads { OnlyReads (D.view disk.old) (D.view disk.new) }
    ensures failed { IsErrOf result Fault.Failed
        → Rose (D.view disk.old).faults (D.view disk.new).faults }
    ensures few { IfOk result (λ greatest. greatest < 2 ^ 62) }
    ensures bad { (file : File) (slot : ℕ) → IsErrOf result (Fault.Bad file slot)
        → IsTrue (D.view disk.old).tells → ⊥ }
    ensures greatest { IfOk result (λ greatest. IsTrue (D.view disk.old).tells
        → EndsBy (D.view disk.old).content aij_named end
        → IsHeader ((D.view disk.old).content aij_named 0) first
        → (journal : Journal) → IsJournalOf (D.view disk.old).content journal
        → HaveUpTo greatest journal.groups) }
{
    let mut slot = 1;
    let mut number = first;
    let mut greatest = 0;
    loop {
        let Some(group) = pass_group(disk, aij_file(), end, slot, number)? else {
            return Ok(greatest);
        };
        let tsn = group.tsn.number;
        if tsn >= 1 << 62 {
            return Err(Fault::Bad(aij_file(), slot));
        }
        greatest = greater(greatest, tsn);
        slot += group.lines + 1;
        number += 1;
    }
}

/// The greatest transaction number of the groups of the after-image journal, 0 where it has none. It is refused only where it has no header. The time grows as the slots of the groups; it takes no memory.
pub(crate) fn greatest_of_groups<D: Disk>(disk: &mut D) -> Result<u64, Fault>
    ensures reads { OnlyReads (D.view disk.old) (D.view disk.new) }
    ensures failed { IsErrOf result Fault.Failed
        → Rose (D.view disk.old).faults (D.view disk.new).faults }
    ensures few { IfOk result (λ greatest. greatest < 2 ^ 62) }
    ensures greatest { IfOk result (λ greatest. IsTrue (D.view disk.old).tells
        → (journal : Journal) → IsJournalOf (D.view disk.old).content journal
        → HaveUpTo greatest journal.groups) }
    ensures bad { (file : File) (slot : ℕ) → IsErrOf result (Fault.Bad file slot)
        → IsTrue (D.view disk.old).tells
        → (journal : Journal) → IsJournalOf (D.view disk.old).content journal → ⊥ }
{
    let first = first_number(disk)?;
    let end = disk.length(aij_file())?;
    greatest_behind(disk, end, first)
}
