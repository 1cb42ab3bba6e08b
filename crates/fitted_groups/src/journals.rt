// The groups of a journal on the pages that their lines meet.
ghost use Rattle.std.specs.Prelude.{◌≡◌, ◌≤◌, ◌-◌, ◌^◌, ◌++◌, ℕ, List, max, IfOk, IsErrOf, IsTrue};
ghost use Rattle.rdb_types.specs.File.{slot_bytes};
ghost use Rattle.rdb_types.specs.declared.file.FileId.{FileId as File};
ghost use Rattle.rdb_outside.specs.Causes.{Rose};
ghost use Rattle.rdb_outside.specs.Disk.{OnlyReads, Image};
ghost use Rattle.aij_journal.specs.Header.{IsHeader};
ghost use Rattle.aij_journal.specs.declared.part.GroupLine.{GroupLine as Line};
ghost use Rattle.stable_lines.specs.Journal.{Journal, next_number};
ghost use Rattle.stable_lines.specs.Rolling.{groups_above};
ghost use Rattle.laid_groups.specs.Passing.{IsJournalIn};
ghost use Rattle.fitted_groups.specs.declared.journals.Fitted.TheVariants.{Behind, Unfit};
ghost use Rattle.fitted_groups.specs.Meeting.{lines_among, FitOver};
ghost use Rattle.fitted_groups.specs.Claims.{AreFitted};

use crate::PageClaim;
use crate::lines::fit_above;
use aij_journal::read_header;
use journal_reading::group_at;
use line_opening::OpeningFault;
use rdb_outside::Disk;
use rdb_types::{Dbkey, FileId};
use std::alloc::Global;

/// What comes of looking at a journal: the last group that is behind, where each line fits; or the first line that doesn't.
#[derive(Clone, Copy, Debug, PartialEq, Eq)]
pub enum Fitted {
    Behind(u64),
    Unfit(Dbkey),
}

// The number of the first group, which the header says.
fn first_number<D: Disk>(disk: &mut D, file: FileId) -> Result<u64, OpeningFault>
    requires { slot_bytes file ≡ 512 }
    ensures reads { OnlyReads (D.view disk.old) (D.view disk.new) }
    ensures failed { IsErrOf result OpeningFault.Failed
        → Rose (D.view disk.old).faults (D.view disk.new).faults }
    ensures header { IfOk result (λ first. IsTrue (D.view disk.old).tells
        → IsHeader ((D.view disk.old).content file 0) first) }
    ensures few { IfOk result (λ first. first ≤ 2 ^ 62) }
    ensures bad { (named : File) (at : ℕ) → IsErrOf result (OpeningFault.Bad named at)
        → IsTrue (D.view disk.old).tells → (first : ℕ)
        → IsHeader ((D.view disk.old).content file 0) first → ⊥ }
{
    let mut bytes = [0; 512];
    disk.read(file, 0, &mut bytes)?;
    match read_header(&bytes) {
        Some(first) => Ok(first),
        None => Err(OpeningFault::Bad(file, 0)),
    }
}

// The greater of two numbers.
fn greater(a: u64, b: u64) -> u64
    ensures { result ≡ max a b }
{
    if a < b { b } else { a }
}

// Looks at the groups behind the header.
fn fit_groups<D: Disk>(
    alloc: Global,
    disk: &mut D,
    file: FileId,
    first: u64,
    last: u64,
    claims: &mut [PageClaim],
) -> Result<Fitted, OpeningFault>
    requires size { slot_bytes file ≡ 512 }
    requires few { first ≤ 2 ^ 62 }
    ensures reads { OnlyReads (D.view disk.old) (D.view disk.new) }
    ensures failed { IsErrOf result OpeningFault.Failed
        → Rose (D.view disk.old).faults (D.view disk.new).faults }
    ensures bad { (named : File) (at : ℕ) → IsErrOf result (OpeningFault.Bad named at) → ⊥ }
    ensures behind { IfOk result (λ found. (reached : ℕ) → found ≡ Behind reached
        → IsTrue (D.view disk.old).tells → (journal : Journal)
        → IsJournalIn (D.view disk.old).content file journal → first ≡ journal.first
        → reached ≡ max last (next_number journal - 1)) }
    ensures fitted { IfOk result (λ found. (reached : ℕ) → found ≡ Behind reached
        → IsTrue (D.view disk.old).tells → (journal : Journal)
        → IsJournalIn (D.view disk.old).content file journal → first ≡ journal.first
        → (image : Image) (pages : ℕ) (before : List Line) → AreFitted image pages before claims.old
        → AreFitted image pages (before ++ lines_among (groups_above last journal.groups)) claims.new) }
    ensures unfit { IfOk result (λ found. (key : _) → found ≡ Unfit key
        → IsTrue (D.view disk.old).tells → (journal : Journal)
        → IsJournalIn (D.view disk.old).content file journal → first ≡ journal.first
        → (image : Image) (pages : ℕ) (before behind : List Line)
        → AreFitted image pages before claims.old
        → FitOver image pages (before ++ (lines_among (groups_above last journal.groups) ++ behind)) → ⊥) }
{
    let end = disk.length(file)?;
    let mut slot = 1;
    let mut number = first;
    loop {
        let Some(group) = group_at(alloc, disk, file, end, slot, number)? else {
            return Ok(Fitted::Behind(greater(last, number.saturating_sub(1))));
        };
        let lines = group.lines.len() as u32;
        if let Some(key) = fit_above(claims, last, &group) {
            return Ok(Fitted::Unfit(key));
        }
        slot += lines + 1;
        number += 1;
    }
}

/// Looks at the groups of the journal in this file whose numbers are above the last one that is behind, line by line, and answers the last one that is behind then, or the first line that doesn't fit the page that it meets. The claims are those of the pages behind earlier lines, and then behind these too. There is one group in memory at a time, and nothing is written.
pub fn fit_journal<D: Disk>(
    alloc: Global,
    disk: &mut D,
    file: FileId,
    last: u64,
    claims: &mut [PageClaim],
) -> Result<Fitted, OpeningFault>
    requires { slot_bytes file ≡ 512 }
    ensures reads { OnlyReads (D.view disk.old) (D.view disk.new) }
    ensures failed { IsErrOf result OpeningFault.Failed
        → Rose (D.view disk.old).faults (D.view disk.new).faults }

    // A journal is never refused.
    ensures bad { (named : File) (at : ℕ) → IsErrOf result (OpeningFault.Bad named at)
        → IsTrue (D.view disk.old).tells → (journal : Journal)
        → IsJournalIn (D.view disk.old).content file journal → ⊥ }

    // All its lines fit.
    ensures behind { IfOk result (λ found. (reached : ℕ) → found ≡ Behind reached
        → IsTrue (D.view disk.old).tells → (journal : Journal)
        → IsJournalIn (D.view disk.old).content file journal
        → reached ≡ max last (next_number journal - 1)) }
    ensures fitted { IfOk result (λ found. (reached : ℕ) → found ≡ Behind reached
        → IsTrue (D.view disk.old).tells → (journal : Journal)
        → IsJournalIn (D.view disk.old).content file journal
        → (image : Image) (pages : ℕ) (before : List Line) → AreFitted image pages before claims.old
        → AreFitted image pages (before ++ lines_among (groups_above last journal.groups)) claims.new) }

    // One of its lines doesn't, whatever lines follow.
    ensures unfit { IfOk result (λ found. (key : _) → found ≡ Unfit key
        → IsTrue (D.view disk.old).tells → (journal : Journal)
        → IsJournalIn (D.view disk.old).content file journal
        → (image : Image) (pages : ℕ) (before behind : List Line)
        → AreFitted image pages before claims.old
        → FitOver image pages (before ++ (lines_among (groups_above last journal.groups) ++ behind)) → ⊥) }
{
    let first = first_number(disk, file)?;
    fit_groups(alloc, disk, file, first, last, claims)
}
