// Whether the groups of the copies of the journal and of the journal fit the pages that their lines meet.
ghost use Rattle.std.specs.Prelude.{◌≡◌, ◌≤◌, ◌-◌, ◌++◌, [], ℕ, List, max, IfOk, OnOk, IsErrOf, IsTrue};
ghost use Rattle.rdb_types.specs.File.{slot_bytes};
ghost use Rattle.rdb_types.specs.declared.file.FileId.{FileId as File};
ghost use Rattle.rdb_outside.specs.Causes.{Rose};
ghost use Rattle.rdb_outside.specs.Disk.{OnlyReads, Image};
ghost use Rattle.aij_journal.specs.declared.part.GroupLine.{GroupLine as Line};
ghost use Rattle.journal_scan.specs.declared.group.Group.{Group};
ghost use Rattle.stable_lines.specs.Journal.{Journal, next_number};
ghost use Rattle.stable_lines.specs.Rolling.{groups_above};
ghost use Rattle.rolled_lines.specs.Journals.{follow, laid as laid_with};
ghost use Rattle.fitted_groups.specs.laid_groups.Passing.{IsJournalIn};
ghost use Rattle.fitted_groups.specs.Meeting.{lines_among, FitOver, FitPages};
ghost use Rattle.fitted_groups.specs.Claims.{AreFitted};
ghost use Rattle.rmu_recover.specs.Journals.{files_of, AreJournalsIn};

use crate::RecoverFault;
use crate::journals::copy_file;
use fitted_groups::{Fitted, PageClaim, fit_journal, page_claims};
use line_moves::aij_file;
use rdb_outside::Disk;
use rdb_types::FileId;
use std::alloc::Global;

// Looks at the groups of the next journal.
fn fit_next<D: Disk>(
    alloc: Global,
    disk: &mut D,
    file: FileId,
    last: u64,
    claims: &mut [PageClaim],
) -> Result<u64, RecoverFault>
    requires { slot_bytes file ≡ 512 }
    ensures reads { OnlyReads (D.view disk.old) (D.view disk.new) }
    ensures failed { IsErrOf result RecoverFault.Failed
        → Rose (D.view disk.old).faults (D.view disk.new).faults }
    ensures no_gap { (number : ℕ) → IsErrOf result (RecoverFault.Gap number) → ⊥ }
    ensures bad { (named : File) (slot : ℕ) → IsErrOf result (RecoverFault.Bad named slot)
        → IsTrue (D.view disk.old).tells → (journal : Journal)
        → IsJournalIn (D.view disk.old).content file journal → ⊥ }
    ensures behind { IfOk result (λ reached. IsTrue (D.view disk.old).tells → (journal : Journal)
        → IsJournalIn (D.view disk.old).content file journal
        → reached ≡ max last (next_number journal - 1)) }
    ensures fitted { OnOk result (IsTrue (D.view disk.old).tells → (journal : Journal)
        → IsJournalIn (D.view disk.old).content file journal
        → (image : Image) (pages : ℕ) (before : List Line) → AreFitted image pages before claims.old
        → AreFitted image pages (before ++ lines_among (groups_above last journal.groups)) claims.new) }
    ensures unfit { (key : _) → IsErrOf result (RecoverFault.Unfit key)
        → IsTrue (D.view disk.old).tells → (journal : Journal)
        → IsJournalIn (D.view disk.old).content file journal
        → (image : Image) (pages : ℕ) (before behind : List Line)
        → AreFitted image pages before claims.old
        → FitOver image pages (before ++ (lines_among (groups_above last journal.groups) ++ behind)) → ⊥ }
{
    match fit_journal(alloc, disk, file, last, claims)? {
        Fitted::Behind(reached) => Ok(reached),
        Fitted::Unfit(key) => Err(RecoverFault::Unfit(key)),
    }
}

// Looks at the groups of the copies of these numbers and of the journal that are above the last one that is behind.
fn fit_all<D: Disk>(
    alloc: Global,
    disk: &mut D,
    copies: &[u32],
    last: u64,
    claims: &mut [PageClaim],
) -> Result<(), RecoverFault>
    ensures reads { OnlyReads (D.view disk.old) (D.view disk.new) }
    ensures failed { IsErrOf result RecoverFault.Failed
        → Rose (D.view disk.old).faults (D.view disk.new).faults }
    ensures no_gap { (number : ℕ) → IsErrOf result (RecoverFault.Gap number) → ⊥ }
    ensures bad { (named : File) (slot : ℕ) → IsErrOf result (RecoverFault.Bad named slot)
        → IsTrue (D.view disk.old).tells → (journals : List Journal) (groups : List Group)
        → AreJournalsIn (D.view disk.old).content (files_of copies.now) journals
        → follow last journals ≡ laid_with groups → ⊥ }
    ensures fit { OnOk result (IsTrue (D.view disk.old).tells
        → (journals : List Journal) (groups : List Group)
        → AreJournalsIn (D.view disk.old).content (files_of copies.now) journals
        → follow last journals ≡ laid_with groups
        → (image : Image) (pages : ℕ) → AreFitted image pages [] claims.old
        → FitPages image pages groups) }
    ensures unfit { (key : _) → IsErrOf result (RecoverFault.Unfit key)
        → IsTrue (D.view disk.old).tells → (journals : List Journal) (groups : List Group)
        → AreJournalsIn (D.view disk.old).content (files_of copies.now) journals
        → follow last journals ≡ laid_with groups
        → (image : Image) (pages : ℕ) → AreFitted image pages [] claims.old
        → FitPages image pages groups → ⊥ }
{
    let mut behind = last;
    for number in copies {
        behind = fit_next(alloc, disk, copy_file(*number), behind, claims)?;
    }
    fit_next(alloc, disk, aij_file(), behind, claims)?;
    Ok(())
}

/// Looks whether the groups of the copies of these numbers and of the journal that are above the last one that is behind fit the pages of the area files, up to this limit. The pages are read once, and so are the slots of the journals. It takes eight bytes a page and area file, and one group is in memory at a time. Nothing is written.
pub(crate) fn check_fit<D: Disk>(
    alloc: Global,
    disk: &mut D,
    copies: &[u32],
    last: u64,
    pages: u32,
) -> Result<(), RecoverFault>
    requires { pages ≤ 65536 }
    ensures reads { OnlyReads (D.view disk.old) (D.view disk.new) }
    ensures failed { IsErrOf result RecoverFault.Failed
        → Rose (D.view disk.old).faults (D.view disk.new).faults }
    ensures no_gap { (number : ℕ) → IsErrOf result (RecoverFault.Gap number) → ⊥ }

    // Journals that follow on are never refused.
    ensures bad { (named : File) (slot : ℕ) → IsErrOf result (RecoverFault.Bad named slot)
        → IsTrue (D.view disk.old).tells → (journals : List Journal) (groups : List Group)
        → AreJournalsIn (D.view disk.old).content (files_of copies.now) journals
        → follow last journals ≡ laid_with groups → ⊥ }
    ensures fit { OnOk result (IsTrue (D.view disk.old).tells
        → (journals : List Journal) (groups : List Group)
        → AreJournalsIn (D.view disk.old).content (files_of copies.now) journals
        → follow last journals ≡ laid_with groups
        → FitPages (D.view disk.old).content pages groups) }
    ensures unfit { (key : _) → IsErrOf result (RecoverFault.Unfit key)
        → IsTrue (D.view disk.old).tells → (journals : List Journal) (groups : List Group)
        → AreJournalsIn (D.view disk.old).content (files_of copies.now) journals
        → follow last journals ≡ laid_with groups
        → FitPages (D.view disk.old).content pages groups → ⊥ }
{
    let mut claims = page_claims(alloc, disk, pages)?;
    fit_all(alloc, disk, copies, last, claims.as_mut_slice())
}
