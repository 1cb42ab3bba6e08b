// What stands on a disk before a run.
ghost use Rattle.std.specs.Prelude.{◌≡◌, ◌≤◌, ◌<◌, ◌-◌, ◌^◌, ◌==◌, ℕ, true, false, if◌then◌else◌, IfOk, IsErrOf, IsTrue};
ghost use Rattle.rdb_types.specs.declared.file.FileId.{FileId as File};
ghost use Rattle.rdb_outside.specs.Causes.{Rose};
ghost use Rattle.rdb_outside.specs.Disk.{OnlyReads};
ghost use Rattle.root_file.specs.declared.Root.{Root as RootSaid};
ghost use Rattle.root_file.specs.Root.{IsRoot};
ghost use Rattle.new_database.specs.Maker.{root_file as root_named};
ghost use Rattle.stable_lines.specs.Journal.{Journal, IsJournalOf, next_slot};
ghost use Rattle.line_opening.specs.Passing.{IsNext};
ghost use Rattle.line_runs.specs.opened_store.Opened.{AreUsedUp};
ghost use Rattle.workload_runs.specs.Numbers.{Wanted};

use line_moves::aij_file;
use line_opening::{NextGroup, OpeningFault, find_open};
use rdb_outside::Disk;
use rdb_types::Limits;
use rmu_dump::root_of;
use root_file::Root;

/// The limits of a database, and the slot of its after-image journal in which the next group is written.
#[derive(Clone, Copy, Debug, PartialEq, Eq)]
pub struct Stand {
    pub limits: Limits,
    pub next: u32,
}

// The last number of a group. Those of transactions end 64 below it.
const LAST_NUMBER: u64 = 4_611_686_018_427_387_904;

// How many slots of the journal are in use: none where the database was restored and not used since, since its journal is begun anew.
fn slots_in_use(root: &Root, next: NextGroup) -> u32
    ensures { result ≡ (if root.now.state == 3 then 0 else next.slot) }
{
    if root.state == 3 { 0 } else { next.slot }
}

// Whether no numbers are left for transactions.
fn has_spent(root: &Root) -> bool
    ensures yes { result ≡ true → 2 ^ 62 - 64 < root.now.ceiling }
    ensures no { result ≡ false → root.now.ceiling ≤ 2 ^ 62 - 64 }
{
    LAST_NUMBER - 64 < root.ceiling
}

// Whether there are fewer numbers than groups for which the journal has room.
fn wants_more(root: &Root, next: NextGroup) -> bool
    ensures yes { result ≡ true → Wanted root.now next (if root.now.state == 3 then 0 else next.slot) }
    ensures no { result ≡ false → Wanted root.now next (if root.now.state == 3 then 0 else next.slot) → ⊥ }
{
    let last = LAST_NUMBER + u64::from(slots_in_use(root, next));
    last < next.number.saturating_add(u64::from(root.limits.slots))
}

// Whether a database has used up its numbers. An opening refuses such a one.
fn are_used_up(root: &Root, next: NextGroup) -> bool
    ensures yes { (journal : Journal) → IsNext journal next → result ≡ true → AreUsedUp journal root.now }
    ensures no { (journal : Journal) → IsNext journal next → result ≡ false → AreUsedUp journal root.now → ⊥ }
{
    if has_spent(root) {
        return true;
    }
    wants_more(root, next)
}

/// Reads the root, and the groups of the journal one by one. A database that has used up its numbers is refused, as at its opening.
pub(crate) fn find_stand<D: Disk>(disk: &mut D) -> Result<Stand, OpeningFault>
    ensures limits { IfOk result (λ stand. IsTrue (D.view disk.old).tells
        → (root : RootSaid) → IsRoot ((D.view disk.old).content root_named 0) root → stand.limits ≡ root.limits) }
    ensures next { IfOk result (λ stand. IsTrue (D.view disk.old).tells
        → (journal : Journal) → IsJournalOf (D.view disk.old).content journal → stand.next ≡ next_slot journal) }
    ensures numbers { IfOk result (λ stand. IsTrue (D.view disk.old).tells
        → (root : RootSaid) → IsRoot ((D.view disk.old).content root_named 0) root
        → (journal : Journal) → IsJournalOf (D.view disk.old).content journal → AreUsedUp journal root → ⊥) }

    // It is refused only where the root is none, the header of the journal is none, or the numbers are used up.
    ensures bad { (file : File) (slot : ℕ) → IsErrOf result (OpeningFault.Bad file slot)
        → IsTrue (D.view disk.old).tells
        → (root : RootSaid) → IsRoot ((D.view disk.old).content root_named 0) root
        → (journal : Journal) → IsJournalOf (D.view disk.old).content journal → AreUsedUp journal root }
    ensures failed { IsErrOf result OpeningFault.Failed
        → Rose (D.view disk.old).faults (D.view disk.new).faults }

    // Whatever it answers.
    ensures reads { OnlyReads (D.view disk.old) (D.view disk.new) }
{
    let root = root_of(disk)?;
    let next = find_open(disk, &mut [])?;
    if are_used_up(&root, next) {
        return Err(OpeningFault::Bad(aij_file(), 0));
    }
    Ok(Stand {
        limits: root.limits,
        next: next.slot,
    })
}
