// Which transactions have a whole group in the after-image journal.
ghost use Rattle.std.specs.Prelude.{◌≡◌, ◌≤◌, ◌^◌, ℕ, map, IfOk, OnOk, IsErrOf, IsTrue};
ghost use Rattle.rdb_types.specs.declared.file.FileId.{FileId as File};
ghost use Rattle.rdb_outside.specs.Causes.{Rose};
ghost use Rattle.rdb_outside.specs.Disk.{OnlyReads};
ghost use Rattle.journal_passing.specs.aij_journal.Header.{IsHeader};
ghost use Rattle.journal_passing.specs.journal_reading.Journal.{EndsBy};
ghost use Rattle.line_moves.specs.new_database.Maker.{aij_file as aij_named};
ghost use Rattle.line_moves.specs.stable_lines.Journal.{Journal, IsJournalOf};
ghost use Rattle.line_opening.specs.Headers.{open_in};
ghost use Rattle.line_opening.specs.Passing.{without, IsNext};

use journal_passing::{pass_group, read_header};
use line_moves::{Fault, aij_file};
use rdb_outside::Disk;

/// Where the next group of the after-image journal is written, and its number.
#[derive(Clone, Copy, Debug, PartialEq, Eq)]
pub struct NextGroup {
    pub slot: u32,
    pub number: u64,
}

// The number of another transaction.
fn other(number: u64, tsn: u64) -> u64
    ensures { result ≡ without tsn number }
{
    if tsn == number { 0 } else { number }
}

// This transaction has a group.
fn forget(numbers: &mut [u64], tsn: u64)
    ensures { numbers.new ≡ map (without tsn) numbers.old }
{
    for number in numbers.iter_mut() {
        *number = other(*number, tsn);
    }
}

// The number of the first group, which the header of the after-image journal says.
fn first_number<D: Disk>(disk: &mut D) -> Result<u64, Fault>
    ensures reads { OnlyReads (D.view disk.old) (D.view disk.new) }
    ensures failed { IsErrOf result Fault.Failed
        → Rose (D.view disk.old).faults (D.view disk.new).faults }
    ensures header { IfOk result (λ first. IsTrue (D.view disk.old).tells
        → IsHeader ((D.view disk.old).content aij_named 0) first) }
    ensures few { IfOk result (λ first. first ≤ 2 ^ 62) }
    ensures bad { (file : File) (slot : ℕ) → IsErrOf result (Fault.Bad file slot)
        → IsTrue (D.view disk.old).tells
        → (first : ℕ) → IsHeader ((D.view disk.old).content aij_named 0) first → ⊥ }
{
    let journal = aij_file();
    let mut slot = [0; 512];
    disk.read(journal, 0, &mut slot)?;
    match read_header(&slot) {
        Some(first) => Ok(first),
        None => Err(Fault::Bad(journal, 0)),
    }
}

// Goes over the groups, up to the slot from which on the file is zeros.
fn pass_groups<D: Disk>(
    disk: &mut D,
    end: u32,
    first: u64,
    numbers: &mut [u64],
) -> Result<NextGroup, Fault>
    requires { first ≤ 2 ^ 62 }
    ensures reads { OnlyReads (D.view disk.old) (D.view disk.new) }
    ensures failed { IsErrOf result Fault.Failed
        → Rose (D.view disk.old).faults (D.view disk.new).faults }
    ensures bad { (file : File) (slot : ℕ) → IsErrOf result (Fault.Bad file slot) → ⊥ }
    ensures open { OnOk result (IsTrue (D.view disk.old).tells
        → EndsBy (D.view disk.old).content aij_named end
        → IsHeader ((D.view disk.old).content aij_named 0) first
        → (journal : Journal) → IsJournalOf (D.view disk.old).content journal
        → numbers.new ≡ map (open_in journal.groups) numbers.old) }
    ensures next { IfOk result (λ next. IsTrue (D.view disk.old).tells
        → EndsBy (D.view disk.old).content aij_named end
        → IsHeader ((D.view disk.old).content aij_named 0) first
        → (journal : Journal) → IsJournalOf (D.view disk.old).content journal → IsNext journal next) }
{
    let mut next = NextGroup {
        slot: 1,
        number: first,
    };
    loop {
        let Some(group) = pass_group(disk, aij_file(), end, next.slot, next.number)? else {
            return Ok(next);
        };
        forget(numbers, group.tsn.number);
        next.slot += group.lines + 1;
        next.number += 1;
    }
}

/// Puts 0 in place of each transaction that has a whole group in the after-image journal: it is committed. The others are open. It answers where the next group is written. The time grows as the slots of the groups; it takes no memory.
pub fn find_open<D: Disk>(disk: &mut D, numbers: &mut [u64]) -> Result<NextGroup, Fault>
    ensures reads { OnlyReads (D.view disk.old) (D.view disk.new) }
    ensures failed { IsErrOf result Fault.Failed
        → Rose (D.view disk.old).faults (D.view disk.new).faults }

    // These are the groups of the journal, and of no other.
    ensures open { OnOk result (IsTrue (D.view disk.old).tells
        → (journal : Journal) → IsJournalOf (D.view disk.old).content journal
        → numbers.new ≡ map (open_in journal.groups) numbers.old) }
    ensures next { IfOk result (λ next. IsTrue (D.view disk.old).tells
        → (journal : Journal) → IsJournalOf (D.view disk.old).content journal → IsNext journal next) }

    // A journal is refused only where slot 0 is no header.
    ensures bad { (file : File) (slot : ℕ) → IsErrOf result (Fault.Bad file slot)
        → IsTrue (D.view disk.old).tells
        → (journal : Journal) → IsJournalOf (D.view disk.old).content journal → ⊥ }
{
    let first = first_number(disk)?;
    let end = disk.length(aij_file())?;
    pass_groups(disk, end, first, numbers)
}
