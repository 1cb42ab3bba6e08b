// A journal passed without its lines.
ghost use Rattle.std.specs.Prelude.{◌≡◌, ◌≤◌, ◌<◌, ◌+◌, ◌-◌, ◌^◌, ℕ, Some, None, max, nat_lt, if◌then◌else◌, IfOk, IsErrOf, IsTrue};
ghost use Rattle.rdb_types.specs.File.{slot_bytes};
ghost use Rattle.rdb_types.specs.declared.file.FileId.{FileId as File};
ghost use Rattle.rdb_outside.specs.Causes.{Rose};
ghost use Rattle.rdb_outside.specs.Disk.{OnlyReads};
ghost use Rattle.aij_journal.specs.Header.{IsHeader};
ghost use Rattle.journal_reading.specs.Journal.{EndsBy};
ghost use Rattle.stable_lines.specs.Journal.{Journal};
ghost use Rattle.laid_groups.specs.Passing.{IsJournalIn, reached_behind};

use aij_journal::read_header;
use journal_passing::pass_group;
use line_store::Fault;
use rdb_outside::Disk;
use rdb_types::FileId;

/// How far journals go: the number of the last group that is behind, and a ceiling above the numbers of the transactions.
#[derive(Clone, Copy, Debug, PartialEq, Eq)]
pub struct Reached {
    pub last: u64,
    pub ceiling: u64,
}

/// The greater of two numbers.
pub(crate) fn greater(a: u64, b: u64) -> u64
    ensures { result ≡ max a b }
{
    if a < b { b } else { a }
}

/// The number of the first group, which the header says.
pub(crate) fn first_number<D: Disk>(disk: &mut D, file: FileId) -> Result<u64, Fault>
    requires { slot_bytes file ≡ 512 }
    ensures reads { OnlyReads (D.view disk.old) (D.view disk.new) }
    ensures failed { IsErrOf result Fault.Failed
        → Rose (D.view disk.old).faults (D.view disk.new).faults }
    ensures header { IfOk result (λ first. IsTrue (D.view disk.old).tells
        → IsHeader ((D.view disk.old).content file 0) first) }
    ensures few { IfOk result (λ first. first ≤ 2 ^ 62) }
    ensures bad { (named : File) (at : ℕ) → IsErrOf result (Fault.Bad named at)
        → IsTrue (D.view disk.old).tells → (first : ℕ)
        → IsHeader ((D.view disk.old).content file 0) first → ⊥ }
{
    let mut bytes = [0; 512];
    disk.read(file, 0, &mut bytes)?;
    match read_header(&bytes) {
        Some(first) => Ok(first),
        None => Err(Fault::Bad(file, 0)),
    }
}

// Goes over the groups behind the header, up to the slot from which on the file is zeros.
fn pass_groups<D: Disk>(
    disk: &mut D,
    file: FileId,
    end: u32,
    first: u64,
    at: Reached,
) -> Result<Reached, Fault>
    requires size { slot_bytes file ≡ 512 }
    requires few { first ≤ 2 ^ 62 }
    requires last { at.last < 2 ^ 63 }
    requires ceiling { at.ceiling ≤ 2 ^ 62 }
    ensures reads { OnlyReads (D.view disk.old) (D.view disk.new) }
    ensures failed { IsErrOf result Fault.Failed
        → Rose (D.view disk.old).faults (D.view disk.new).faults }
    ensures grows { IfOk result (λ reached. at.last ≤ reached.last) }
    ensures last { IfOk result (λ reached. reached.last < 2 ^ 63) }
    ensures above { IfOk result (λ reached. at.ceiling ≤ reached.ceiling) }
    ensures ceiling { IfOk result (λ reached. reached.ceiling ≤ 2 ^ 62) }
    ensures bad { (named : File) (slot : ℕ) → IsErrOf result (Fault.Bad named slot)
        → IsTrue (D.view disk.old).tells → ⊥ }
    ensures reached { IfOk result (λ reached. IsTrue (D.view disk.old).tells → (journal : Journal)
        → IsJournalIn (D.view disk.old).content file journal → first ≡ journal.first
        → EndsBy (D.view disk.old).content file end
        → reached ≡ reached_behind at journal) }
{
    let mut slot = 1;
    let mut number = first;
    let mut ceiling = at.ceiling;
    loop {
        let Some(group) = pass_group(disk, file, end, slot, number)? else {
            return Ok(Reached {
                last: greater(at.last, number.saturating_sub(1)),
                ceiling,
            });
        };
        if group.tsn.number >= 1 << 62 {
            return Err(Fault::Bad(file, slot));
        }
        ceiling = ceiling_with(at.last, number, group.tsn.number, ceiling);
        slot += group.lines + 1;
        number += 1;
    }
}

// The ceiling above a group's transaction too, where the group is above the last one that is behind.
fn ceiling_with(last: u64, number: u64, tsn: u64, ceiling: u64) -> u64
    requires { tsn < 2 ^ 62 }
    ensures value { result ≡ (if nat_lt last number then max ceiling (tsn + 1) else ceiling) }
    ensures above { ceiling ≤ result }
    ensures below { ceiling ≤ 2 ^ 62 → result ≤ 2 ^ 62 }
{
    if last < number {
        greater(ceiling, tsn + 1)
    } else {
        ceiling
    }
}

/// Goes over the journal in this file, whose groups above the last one are laid behind those of earlier journals: how far it goes. None is answered where it begins above the next number, so that that group is missing. The time grows as the slots of the groups; it takes no memory.
pub fn pass_journal<D: Disk>(
    disk: &mut D,
    file: FileId,
    at: Reached,
) -> Result<Option<Reached>, Fault>
    requires size { slot_bytes file ≡ 512 }
    requires last { at.last < 2 ^ 63 }
    requires ceiling { at.ceiling ≤ 2 ^ 62 }
    ensures reads { OnlyReads (D.view disk.old) (D.view disk.new) }
    ensures failed { IsErrOf result Fault.Failed
        → Rose (D.view disk.old).faults (D.view disk.new).faults }

    // A journal is never refused.
    ensures bad { (named : File) (slot : ℕ) → IsErrOf result (Fault.Bad named slot)
        → IsTrue (D.view disk.old).tells → (journal : Journal)
        → IsJournalIn (D.view disk.old).content file journal → ⊥ }

    // It goes further, within the numbers that there are.
    ensures grows { IfOk result (λ found. (reached : _) → found ≡ Some reached → at.last ≤ reached.last) }
    ensures last { IfOk result (λ found. (reached : _) → found ≡ Some reached → reached.last < 2 ^ 63) }
    ensures above { IfOk result (λ found. (reached : _) → found ≡ Some reached → at.ceiling ≤ reached.ceiling) }
    ensures ceiling { IfOk result (λ found. (reached : _) → found ≡ Some reached → reached.ceiling ≤ 2 ^ 62) }

    // Of a journal that goes on from there it tells the last group and the ceiling.
    ensures no_gap { IfOk result (λ found. IsTrue (D.view disk.old).tells → (journal : Journal)
        → IsJournalIn (D.view disk.old).content file journal
        → (reached : _) → found ≡ Some reached → journal.first ≤ at.last + 1) }
    ensures reached { IfOk result (λ found. IsTrue (D.view disk.old).tells → (journal : Journal)
        → IsJournalIn (D.view disk.old).content file journal
        → (reached : _) → found ≡ Some reached → reached ≡ reached_behind at journal) }
    ensures gap { IfOk result (λ found. IsTrue (D.view disk.old).tells → (journal : Journal)
        → IsJournalIn (D.view disk.old).content file journal
        → found ≡ None → at.last + 1 < journal.first) }
{
    let first = first_number(disk, file)?;
    if at.last + 1 < first {
        return Ok(None);
    }
    let end = disk.length(file)?;
    let reached = pass_groups(disk, file, end, first, at)?;
    Ok(Some(reached))
}
