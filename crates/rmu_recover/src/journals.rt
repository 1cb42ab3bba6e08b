// The copies of the journal and the journal, one behind another.
ghost use Rattle.std.specs.Prelude.{◌≡◌, ◌≤◌, ◌<◌, ◌+◌, ◌^◌, ℕ, List, IfOk, OnOk, IsErrOf, IsTrue};
ghost use Rattle.rdb_types.specs.File.{slot_bytes};
ghost use Rattle.rdb_types.specs.declared.file.FileId.{FileId as File};
ghost use Rattle.rdb_outside.specs.Causes.{Rose};
ghost use Rattle.rdb_outside.specs.Disk.{OnlyReads};
ghost use Rattle.journal_scan.specs.declared.group.Group.{Group};
ghost use Rattle.stable_lines.specs.Journal.{Journal};
ghost use Rattle.rolled_lines.specs.HalfLaid.{writes_of};
ghost use Rattle.rolled_lines.specs.Journals.{follow, laid as laid_with, gap as gap_at};
ghost use Rattle.journal_backup.specs.Copied.{copy_named};
ghost use Rattle.guarded_root.specs.Guarded.{RunsBehind};
ghost use Rattle.guarded_lines.specs.Laying.{IsArea};
ghost use Rattle.fitted_groups.specs.laid_groups.Forward.{Forward, FitAll, IsReady, KeepsReady};
ghost use Rattle.fitted_groups.specs.laid_groups.Laid.{LaidOver};
ghost use Rattle.fitted_groups.specs.laid_groups.Passing.{IsJournalIn};
ghost use Rattle.rmu_recover.specs.Journals.{files_of, AreJournalsIn, Reaches, FollowsTo};

use crate::RecoverFault;
use fitted_groups::{Reached, lay_journal, pass_journal};
use line_moves::aij_file;
use line_opening::OpeningFault;
use rdb_outside::Disk;
use rdb_types::{FileId, FileKind};
use std::alloc::Global;

/// The file of the copy of this number.
pub(crate) fn copy_file(number: u32) -> FileId
    ensures { result ≡ copy_named number }
{
    FileId {
        kind: FileKind::AijBackup,
        number,
    }
}

// Goes over the next journal. Where it begins too late, the group that comes next is missing.
fn pass_next<D: Disk>(disk: &mut D, file: FileId, at: Reached) -> Result<Reached, RecoverFault>
    requires size { slot_bytes file ≡ 512 }
    requires last { at.last < 2 ^ 63 }
    requires ceiling { at.ceiling ≤ 2 ^ 62 }
    ensures reads { OnlyReads (D.view disk.old) (D.view disk.new) }
    ensures failed { IsErrOf result RecoverFault.Failed
        → Rose (D.view disk.old).faults (D.view disk.new).faults }
    ensures bad { (named : File) (slot : ℕ) → IsErrOf result (RecoverFault.Bad named slot)
        → IsTrue (D.view disk.old).tells → (journal : Journal)
        → IsJournalIn (D.view disk.old).content file journal → ⊥ }
    ensures missing { (number : ℕ) → IsErrOf result (RecoverFault.Gap number) → number ≡ at.last + 1 }
    ensures gap { (number : ℕ) → IsErrOf result (RecoverFault.Gap number)
        → IsTrue (D.view disk.old).tells → (journal : Journal)
        → IsJournalIn (D.view disk.old).content file journal → at.last + 1 < journal.first }
    ensures no_unfit { (key : _) → IsErrOf result (RecoverFault.Unfit key) → ⊥ }
    ensures reached { IfOk result (λ reached. IsTrue (D.view disk.old).tells → (journal : Journal)
        → IsJournalIn (D.view disk.old).content file journal → Reaches at journal reached) }
    ensures grows { IfOk result (λ reached. at.last ≤ reached.last) }
    ensures last { IfOk result (λ reached. reached.last < 2 ^ 63) }
    ensures above { IfOk result (λ reached. at.ceiling ≤ reached.ceiling) }
    ensures ceiling { IfOk result (λ reached. reached.ceiling ≤ 2 ^ 62) }
{
    match pass_journal(disk, file, at)? {
        Some(reached) => Ok(reached),
        None => Err(RecoverFault::Gap(at.last + 1)),
    }
}

/// Goes over the copies of these numbers and the journal, which follow on from the last group that is behind, and tells how far they go. The time grows as their slots; it takes no memory.
pub(crate) fn pass_all<D: Disk>(
    disk: &mut D,
    copies: &[u32],
    at: Reached,
) -> Result<Reached, RecoverFault>
    requires last { at.last < 2 ^ 63 }
    requires ceiling { at.ceiling ≤ 2 ^ 62 }
    ensures reads { OnlyReads (D.view disk.old) (D.view disk.new) }
    ensures failed { IsErrOf result RecoverFault.Failed
        → Rose (D.view disk.old).faults (D.view disk.new).faults }
    ensures bad { (named : File) (slot : ℕ) → IsErrOf result (RecoverFault.Bad named slot)
        → IsTrue (D.view disk.old).tells → (journals : List Journal)
        → AreJournalsIn (D.view disk.old).content (files_of copies.now) journals → ⊥ }
    ensures gap { (number : ℕ) → IsErrOf result (RecoverFault.Gap number)
        → IsTrue (D.view disk.old).tells → (journals : List Journal)
        → AreJournalsIn (D.view disk.old).content (files_of copies.now) journals
        → follow at.last journals ≡ gap_at number }
    ensures no_unfit { (key : _) → IsErrOf result (RecoverFault.Unfit key) → ⊥ }
    ensures reached { IfOk result (λ reached. IsTrue (D.view disk.old).tells → (journals : List Journal)
        → AreJournalsIn (D.view disk.old).content (files_of copies.now) journals
        → FollowsTo at journals reached) }
    ensures grows { IfOk result (λ reached. at.last ≤ reached.last) }
    ensures above { IfOk result (λ reached. at.ceiling ≤ reached.ceiling) }
    ensures ceiling { IfOk result (λ reached. reached.ceiling ≤ 2 ^ 62) }
{
    let mut reached = at;
    for number in copies {
        reached = pass_next(disk, copy_file(*number), reached)?;
    }
    pass_next(disk, aij_file(), reached)
}

/// Lays the groups of the copies of these numbers and of the journal that are above the last one that is behind. There is one group in memory at a time.
pub(crate) fn lay_all<D: Disk>(
    alloc: Global,
    disk: &mut D,
    copies: &[u32],
    last: u64,
) -> Result<(), OpeningFault>
    ensures failed { IsErrOf result OpeningFault.Failed
        → Rose (D.view disk.old).faults (D.view disk.new).faults }
    ensures bad { (named : File) (slot : ℕ) → IsErrOf result (OpeningFault.Bad named slot)
        → IsTrue (D.view disk.old).tells → (forward : Forward) (journals : List Journal) (groups : List Group)
        → IsReady forward (D.view disk.old)
        → AreJournalsIn (D.view disk.old).content (files_of copies.now) journals
        → follow last journals ≡ laid_with groups → FitAll forward groups → ⊥ }
    ensures laid { OnOk result (IsTrue (D.view disk.old).tells
        → (forward : Forward) (journals : List Journal) (groups : List Group)
        → IsReady forward (D.view disk.old)
        → AreJournalsIn (D.view disk.old).content (files_of copies.now) journals
        → follow last journals ≡ laid_with groups → FitAll forward groups
        → LaidOver forward (writes_of groups) (D.view disk.old).content (D.view disk.new).content) }

    // Whatever it answers.
    ensures runs { RunsBehind IsArea (D.view disk.old) (D.view disk.new) }
    ensures ready { IsTrue (D.view disk.old).tells
        → (forward : Forward) (journals : List Journal) (groups : List Group)
        → AreJournalsIn (D.view disk.old).content (files_of copies.now) journals
        → follow last journals ≡ laid_with groups → FitAll forward groups
        → KeepsReady forward (D.view disk.old) (D.view disk.new) }
{
    let mut behind = last;
    for number in copies {
        behind = lay_journal(alloc, disk, copy_file(*number), behind)?;
    }
    lay_journal(alloc, disk, aij_file(), behind)?;
    Ok(())
}
