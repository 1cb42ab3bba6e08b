// A roll-forward as a whole.
ghost use Rattle.std.specs.Prelude.{◌≡◌, ◌≤◌, ◌⊎◌, ◌^◌, ◌-◌, ℕ, List, Ok, length, IfOk, IsErr, OnOk, IsErrOf, IsTrue};
ghost use Rattle.rdb_types.specs.declared.file.FileId.{FileId as File};
ghost use Rattle.root_file.specs.declared.Root.{Root as Values};
ghost use Rattle.root_file.specs.Root.{IsRoot, IsAllowed};
ghost use Rattle.rdb_outside.specs.Causes.{Rose};
ghost use Rattle.rdb_outside.specs.Disk.{Image as Content, OnlyReads, LeavesOnly, LeftNow};
ghost use Rattle.journal_scan.specs.declared.group.Group.{Group};
ghost use Rattle.new_database.specs.Maker.{root_file as root_named};
ghost use Rattle.stable_lines.specs.Journal.{Journal};
ghost use Rattle.rolled_lines.specs.Journals.{follow, gap as gap_at};
ghost use Rattle.database_opening.specs.Others.{KeepsFile};
ghost use Rattle.fitted_groups.specs.laid_groups.Forward.{Forward};
ghost use Rattle.fitted_groups.specs.Meeting.{TakesFirst, FitPages};
ghost use Rattle.rmu_recover.specs.Journals.{files_of, AreJournalsIn};
ghost use Rattle.rmu_recover.specs.Recovering.{IsOther, IsToRoll, IsSource, AllFit, HasGroups, AreSound, IsRolled, WithinRecover};

use crate::RecoverFault;
use crate::fitting::check_fit;
use crate::journals::{lay_all, pass_all};
use fitted_groups::Reached;
use guarded_root::{guard, unguard};
use line_moves::root_file;
use line_opening::OpeningFault;
use line_store::Fault;
use rdb_outside::Disk;
use root_file::{Root, read_root};
use std::alloc::Global;

// The root that stands.
fn standing_root<D: Disk>(disk: &mut D) -> Result<Root, Fault>
    ensures reads { OnlyReads (D.view disk.old) (D.view disk.new) }
    ensures failed { IsErrOf result Fault.Failed
        → Rose (D.view disk.old).faults (D.view disk.new).faults }
    ensures allowed { IfOk result (λ root. IsAllowed root) }
    ensures stands { IfOk result (λ root. IsTrue (D.view disk.old).tells
        → IsRoot ((D.view disk.old).content root_named 0) root) }
    ensures bad { (file : File) (slot : ℕ) → IsErrOf result (Fault.Bad file slot)
        → IsTrue (D.view disk.old).tells → (root : Values)
        → IsRoot ((D.view disk.old).content root_named 0) root → ⊥ }
{
    let mut slot = [0; 1024];
    disk.read(root_file(), 0, &mut slot)?;
    match read_root(&slot) {
        Ok(root) => Ok(root),
        Err(_) => Err(Fault::Bad(root_file(), 0)),
    }
}

// Lays the groups of the journals behind a root that says that they are laid in part.
fn carry_out<D: Disk>(
    alloc: Global,
    disk: &mut D,
    copies: &[u32],
    root: Root,
    ceiling: u64,
) -> Result<(), OpeningFault>
    requires allowed { IsAllowed root }
    requires first { 1 ≤ ceiling }
    requires few { ceiling ≤ 2 ^ 62 }
    ensures told { (D.view disk.new).tells ≡ (D.view disk.old).tells }
    ensures no_fewer { (D.view disk.old).faults ≤ (D.view disk.new).faults }
    ensures failed { IsErrOf result OpeningFault.Failed
        → Rose (D.view disk.old).faults (D.view disk.new).faults }
    ensures bad { (file : File) (slot : ℕ) → IsErrOf result (OpeningFault.Bad file slot)
        → IsTrue (D.view disk.old).tells → (former : Content) (forward : Forward)
        → (journals : List Journal) (groups : List Group) (aij : Journal)
        → IsToRoll former root forward (D.view disk.old)
        → IsSource former copies.now root forward journals groups aij → AllFit forward groups
        → ceiling ≡ forward.top → ⊥ }
    ensures rolled { OnOk result (IsTrue (D.view disk.old).tells → (former : Content) (forward : Forward)
        → (journals : List Journal) (groups : List Group) (aij : Journal) (classes : ℕ → ℕ)
        → IsToRoll former root forward (D.view disk.old)
        → IsSource former copies.now root forward journals groups aij → AllFit forward groups
        → AreSound forward groups classes → ceiling ≡ forward.top
        → (image : Content) → LeftNow (D.view disk.new) image
        → IsRolled classes root forward groups aij image) }
    ensures within { IsTrue (D.view disk.old).tells → (former : Content) (forward : Forward)
        → (journals : List Journal) (groups : List Group) (aij : Journal) (classes : ℕ → ℕ)
        → IsToRoll former root forward (D.view disk.old)
        → IsSource former copies.now root forward journals groups aij → AllFit forward groups
        → AreSound forward groups classes → ceiling ≡ forward.top
        → LeavesOnly (D.view disk.old) (D.view disk.new)
        (WithinRecover (D.view disk.old) former classes root forward groups aij) }
    ensures others { IsTrue (D.view disk.old).tells → (file : File) → IsOther file
        → KeepsFile file (D.view disk.old) (D.view disk.new) }
{
    let unfinished = Root { state: 4, ..root };
    let rolled = Root {
        state: 1,
        ceiling,
        ..root
    };
    guard(disk, &unfinished)?;
    lay_all(alloc, disk, copies, root.applied)?;
    unguard(disk, &rolled)?;
    Ok(())
}

// Rolls a database with this root forward.
fn roll<D: Disk>(
    alloc: Global,
    disk: &mut D,
    copies: &[u32],
    root: Root,
) -> Result<u64, RecoverFault>
    requires allowed { IsAllowed root }
    ensures told { (D.view disk.new).tells ≡ (D.view disk.old).tells }
    ensures no_fewer { (D.view disk.old).faults ≤ (D.view disk.new).faults }
    ensures failed { IsErrOf result RecoverFault.Failed
        → Rose (D.view disk.old).faults (D.view disk.new).faults }
    ensures gap { (number : ℕ) → IsErrOf result (RecoverFault.Gap number)
        → IsTrue (D.view disk.old).tells → (former : Content) (forward : Forward)
        → (journals : List Journal) → IsToRoll former root forward (D.view disk.old)
        → AreJournalsIn former (files_of copies.now) journals
        → follow root.applied journals ≡ gap_at number }
    ensures nothing { (number : ℕ) → IsErrOf result (RecoverFault.Gap number)
        → OnlyReads (D.view disk.old) (D.view disk.new) }
    ensures missing { IsTrue (D.view disk.old).tells → (former : Content) (forward : Forward)
        → (journals : List Journal) (number : ℕ) → IsToRoll former root forward (D.view disk.old)
        → AreJournalsIn former (files_of copies.now) journals
        → follow root.applied journals ≡ gap_at number
        → IsErr result × OnlyReads (D.view disk.old) (D.view disk.new) }
    ensures unfit { (key : _) → IsErrOf result (RecoverFault.Unfit key)
        → IsTrue (D.view disk.old).tells → (former : Content) (forward : Forward)
        → (journals : List Journal) (groups : List Group) → IsToRoll former root forward (D.view disk.old)
        → HasGroups former copies.now root journals groups
        → FitPages (D.view disk.old).content root.limits.pages groups → ⊥ }
    ensures untouched { (key : _) → IsErrOf result (RecoverFault.Unfit key)
        → OnlyReads (D.view disk.old) (D.view disk.new) }
    ensures unfitting { IsTrue (D.view disk.old).tells → (former : Content) (forward : Forward)
        → (journals : List Journal) (groups : List Group) → IsToRoll former root forward (D.view disk.old)
        → HasGroups former copies.now root journals groups
        → (FitPages (D.view disk.old).content root.limits.pages groups → ⊥)
        → IsErr result × OnlyReads (D.view disk.old) (D.view disk.new) }
    ensures bad { (file : File) (slot : ℕ) → IsErrOf result (RecoverFault.Bad file slot)
        → IsTrue (D.view disk.old).tells → (former : Content) (forward : Forward)
        → (journals : List Journal) (groups : List Group) (aij : Journal)
        → IsToRoll former root forward (D.view disk.old)
        → IsSource former copies.now root forward journals groups aij
        → TakesFirst (D.view disk.old).content forward groups → ⊥ }
    ensures count { IfOk result (λ count. IsTrue (D.view disk.old).tells
        → (former : Content) (forward : Forward)
        → (journals : List Journal) (groups : List Group) (aij : Journal)
        → IsToRoll former root forward (D.view disk.old)
        → IsSource former copies.now root forward journals groups aij
        → count ≡ length groups) }
    ensures rolled { OnOk result (IsTrue (D.view disk.old).tells
        → (former : Content) (forward : Forward)
        → (journals : List Journal) (groups : List Group) (aij : Journal) (classes : ℕ → ℕ)
        → IsToRoll former root forward (D.view disk.old)
        → IsSource former copies.now root forward journals groups aij
        → TakesFirst (D.view disk.old).content forward groups
        → AreSound forward groups classes
        → (image : Content) → LeftNow (D.view disk.new) image
        → IsRolled classes root forward groups aij image) }
    ensures within { IsTrue (D.view disk.old).tells
        → (former : Content) (forward : Forward)
        → (journals : List Journal) (groups : List Group) (aij : Journal) (classes : ℕ → ℕ)
        → IsToRoll former root forward (D.view disk.old)
        → IsSource former copies.now root forward journals groups aij
        → TakesFirst (D.view disk.old).content forward groups
        → AreSound forward groups classes
        → LeavesOnly (D.view disk.old) (D.view disk.new)
        (WithinRecover (D.view disk.old) former classes root forward groups aij) }
    ensures others { IsTrue (D.view disk.old).tells → (file : File) → IsOther file
        → KeepsFile file (D.view disk.old) (D.view disk.new) }
{
    let at = Reached {
        last: root.applied,
        ceiling: root.ceiling,
    };
    let reached = pass_all(disk, copies, at)?;
    check_fit(alloc, disk, copies, root.applied, root.limits.pages)?;
    carry_out(alloc, disk, copies, root, reached.ceiling)?;
    Ok(reached.last - root.applied)
}

/// Rolls a database that was restored, or rolled forward in part, forward over the copies of its after-image journal of these numbers, in their order, and that journal: each group above the last one that the root says is laid over the pages, and the database is in use behind it. It answers how many groups were laid, and none for a database in use, which it leaves as it is. The pages and the journals are read before anything is written, and where a line of the groups doesn't fit the page that it meets nothing is; then the journals are read again, and laid. It takes eight bytes a page and area file meanwhile, and one group is in memory at a time. Behind a fault the same roll-forward begins again.
pub fn recover<D: Disk>(alloc: Global, disk: &mut D, copies: &[u32]) -> Result<u64, RecoverFault>
    // It doesn't give up by itself.
    ensures told { (D.view disk.new).tells ≡ (D.view disk.old).tells }
    ensures no_fewer { (D.view disk.old).faults ≤ (D.view disk.new).faults }
    ensures failed { IsErrOf result RecoverFault.Failed
        → Rose (D.view disk.old).faults (D.view disk.new).faults }

    // Where a group is missing it says which, and has written nothing.
    ensures gap { (number : ℕ) → IsErrOf result (RecoverFault.Gap number)
        → IsTrue (D.view disk.old).tells → (former : Content) (root : Values) (forward : Forward)
        → (journals : List Journal) → IsToRoll former root forward (D.view disk.old)
        → AreJournalsIn former (files_of copies.now) journals
        → follow root.applied journals ≡ gap_at number }
    ensures nothing { (number : ℕ) → IsErrOf result (RecoverFault.Gap number)
        → OnlyReads (D.view disk.old) (D.view disk.new) }
    ensures missing { IsTrue (D.view disk.old).tells
        → (former : Content) (root : Values) (forward : Forward)
        → (journals : List Journal) (number : ℕ) → IsToRoll former root forward (D.view disk.old)
        → AreJournalsIn former (files_of copies.now) journals
        → follow root.applied journals ≡ gap_at number
        → IsErr result × OnlyReads (D.view disk.old) (D.view disk.new) }

    // Where a line of the groups doesn't fit the page that it meets, it says which, and has written nothing.
    ensures unfit { (key : _) → IsErrOf result (RecoverFault.Unfit key)
        → IsTrue (D.view disk.old).tells → (former : Content) (root : Values) (forward : Forward)
        → (journals : List Journal) (groups : List Group) → IsToRoll former root forward (D.view disk.old)
        → HasGroups former copies.now root journals groups
        → FitPages (D.view disk.old).content root.limits.pages groups → ⊥ }
    ensures untouched { (key : _) → IsErrOf result (RecoverFault.Unfit key)
        → OnlyReads (D.view disk.old) (D.view disk.new) }
    ensures unfitting { IsTrue (D.view disk.old).tells
        → (former : Content) (root : Values) (forward : Forward)
        → (journals : List Journal) (groups : List Group) → IsToRoll former root forward (D.view disk.old)
        → HasGroups former copies.now root journals groups
        → (FitPages (D.view disk.old).content root.limits.pages groups → ⊥)
        → IsErr result × OnlyReads (D.view disk.old) (D.view disk.new) }

    // Else journals that follow on are never refused.
    ensures bad { (file : File) (slot : ℕ) → IsErrOf result (RecoverFault.Bad file slot)
        → IsTrue (D.view disk.old).tells → (former : Content) (root : Values) (forward : Forward)
        → (journals : List Journal) (groups : List Group) (aij : Journal)
        → IsToRoll former root forward (D.view disk.old)
        → IsSource former copies.now root forward journals groups aij
        → TakesFirst (D.view disk.old).content forward groups → ⊥ }

    // A database in use is left as it is, and nothing is laid.
    ensures in_use { IsTrue (D.view disk.old).tells → (root : Values)
        → IsRoot ((D.view disk.old).content root_named 0) root → root.state ≡ 1
        → OnlyReads (D.view disk.old) (D.view disk.new) }
    ensures idle { IsTrue (D.view disk.old).tells → (root : Values)
        → IsRoot ((D.view disk.old).content root_named 0) root → root.state ≡ 1
        → (result ≡ Ok 0) ⊎ IsErrOf result RecoverFault.Failed }

    // Then each image stands for the lines rolled forward, and is in use.
    ensures count { IfOk result (λ count. IsTrue (D.view disk.old).tells
        → (former : Content) (root : Values) (forward : Forward)
        → (journals : List Journal) (groups : List Group) (aij : Journal)
        → IsToRoll former root forward (D.view disk.old)
        → IsSource former copies.now root forward journals groups aij
        → count ≡ length groups) }
    ensures rolled { OnOk result (IsTrue (D.view disk.old).tells
        → (former : Content) (root : Values) (forward : Forward)
        → (journals : List Journal) (groups : List Group) (aij : Journal) (classes : ℕ → ℕ)
        → IsToRoll former root forward (D.view disk.old)
        → IsSource former copies.now root forward journals groups aij
        → TakesFirst (D.view disk.old).content forward groups
        → AreSound forward groups classes
        → (image : Content) → LeftNow (D.view disk.new) image
        → IsRolled classes root forward groups aij image) }

    // Whatever it answers, a crash at any moment of it leaves what one before might have left, an image that is rolled forward in part, from which this very roll-forward gives the same, or that.
    ensures within { IsTrue (D.view disk.old).tells
        → (former : Content) (root : Values) (forward : Forward)
        → (journals : List Journal) (groups : List Group) (aij : Journal) (classes : ℕ → ℕ)
        → IsToRoll former root forward (D.view disk.old)
        → IsSource former copies.now root forward journals groups aij
        → TakesFirst (D.view disk.old).content forward groups
        → AreSound forward groups classes
        → LeavesOnly (D.view disk.old) (D.view disk.new)
        (WithinRecover (D.view disk.old) former classes root forward groups aij) }

    // Whatever it answers, no other file than the root's and those of areas is written.
    ensures others { IsTrue (D.view disk.old).tells → (file : File) → IsOther file
        → KeepsFile file (D.view disk.old) (D.view disk.new) }
{
    let root = standing_root(disk)?;
    if root.state == 1 {
        return Ok(0);
    }
    if root.state == 2 {
        return Err(RecoverFault::Bad(root_file(), 0));
    }
    roll(alloc, disk, copies, root)
}
