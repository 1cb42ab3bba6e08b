// The steps of an opening behind its first.
ghost use Rattle.std.specs.Prelude.{◌≡◌, ◌≢◌, ◌≤◌, ◌<◌, ◌+◌, ℕ, List, slice_index_or, IfOk, OnOk, IsErrOf, IsTrue};
ghost use Rattle.rdb_types.specs.declared.file.FileId.{FileId as File};
ghost use Rattle.rdb_outside.specs.Causes.{Rose};
ghost use Rattle.rdb_outside.specs.Disk.{LeavesOnly, OnlyReads, Pending, IsStable};
ghost use Rattle.line_view.specs.Knowledge.{Lines};
ghost use Rattle.line_opening.specs.stable_lines.Slots.{IsMember};
ghost use Rattle.line_opening.specs.stable_lines.Journal.{Journal};
ghost use Rattle.line_opening.specs.stable_lines.Kept.{Kept};
ghost use Rattle.line_opening.specs.line_moves.Classes.{HaveTheirClasses};
ghost use Rattle.database_opening.specs.declared.stages.OpeningStage.TheVariants.{Undoing, Restoring, Closing, Opened};
ghost use Rattle.database_opening.specs.Others.{IsOther, KeepsFile};
ghost use Rattle.database_opening.specs.Stages.{OpeningFacts, IsStage, steps_left};
ghost use Rattle.database_opening.specs.Untouched.{KeepsRootAndSpaces};

use crate::stages::{Found, OpeningStage};
use line_opening::{close_next, make_stable, undo_next};
use line_store::Fault;
use rdb_outside::Disk;
use rdb_types::Tsn;

// The stage behind a member whose entries are undone.
fn behind(counts: &[u32; 16], member: u32) -> OpeningStage
    requires { IsMember member }
    ensures stage { IsStage result }
    ensures last { 16 ≤ member → result ≡ Restoring }
    ensures next { member < 16 → result ≡ Undoing (member + 1) (slice_index_or counts.now member 0) }
    ensures nearer { (entries : ℕ)
        → steps_left counts.now result < steps_left counts.now (Undoing member entries) }
{
    if member >= 16 {
        return OpeningStage::Restoring;
    }
    OpeningStage::Undoing {
        member: member + 1,
        entries: counts[member as usize],
    }
}

// Undoes entries of a member, or goes on behind it where none is left.
fn undo_entries<D: Disk>(
    disk: &mut D,
    found: &Found,
    member: u32,
    entries: u32,
) -> Result<OpeningStage, Fault>
    requires { IsMember member }
    ensures told { (D.view disk.new).tells ≡ (D.view disk.old).tells }
    ensures no_fewer { (D.view disk.old).faults ≤ (D.view disk.new).faults }
    ensures failed { IsErrOf result Fault.Failed
        → Rose (D.view disk.old).faults (D.view disk.new).faults }
    ensures stage { IfOk result IsStage }
    ensures nearer { IfOk result (λ next. steps_left found.now.counts next
        < steps_left found.now.counts (Undoing member entries)) }
    ensures bad { (file : File) (slot : ℕ) → IsErrOf result (Fault.Bad file slot)
        → IsTrue (D.view disk.old).tells
        → (classes : ℕ → ℕ) (lines : Lines) (journal : Journal)
        → OpeningFacts classes lines journal (Undoing member entries) (D.view disk.old) found.now → ⊥ }
    ensures goes_on { IfOk result (λ next. IsTrue (D.view disk.old).tells
        → (classes : ℕ → ℕ) (lines : Lines) (journal : Journal)
        → OpeningFacts classes lines journal (Undoing member entries) (D.view disk.old) found.now
        → OpeningFacts classes lines journal next (D.view disk.new) found.now) }
    ensures stands { IsTrue (D.view disk.old).tells
        → (classes : ℕ → ℕ) (lines : Lines) (journal : Journal)
        → OpeningFacts classes lines journal (Undoing member entries) (D.view disk.old) found.now
        → LeavesOnly (D.view disk.old) (D.view disk.new) (Kept classes lines journal) }
    ensures classes { IsTrue (D.view disk.old).tells
        → (classes : ℕ → ℕ) (lines : Lines) (journal : Journal)
        → OpeningFacts classes lines journal (Undoing member entries) (D.view disk.old) found.now
        → (by_area : ℕ → ℕ) → HaveTheirClasses by_area (Pending (D.view disk.old))
        → HaveTheirClasses by_area (Pending (D.view disk.new)) }
    ensures untouched { IsTrue (D.view disk.old).tells
        → KeepsRootAndSpaces (D.view disk.old).content (D.view disk.new).content }
    ensures others { IsTrue (D.view disk.old).tells → (file : File) → IsOther file
        → KeepsFile file (D.view disk.old) (D.view disk.new) }
{
    if entries == 0 {
        return Ok(behind(&found.counts, member));
    }
    let mut page = [0; 1024];
    let tsn = Tsn {
        number: found.numbers[member as usize - 1],
    };
    let pages = found.root.limits.pages;
    let rest = undo_next(disk, pages, member, tsn, entries, &mut page)?;
    Ok(OpeningStage::Undoing {
        member,
        entries: rest,
    })
}

// Closes the next header that names a transaction.
fn close_header<D: Disk>(disk: &mut D, member: u32) -> Result<OpeningStage, Fault>
    requires { IsMember member }
    ensures told { (D.view disk.new).tells ≡ (D.view disk.old).tells }
    ensures no_fewer { (D.view disk.old).faults ≤ (D.view disk.new).faults }
    ensures failed { IsErrOf result Fault.Failed
        → Rose (D.view disk.old).faults (D.view disk.new).faults }
    ensures stage { IfOk result IsStage }
    ensures nearer { IfOk result (λ next. (counts : List ℕ)
        → steps_left counts next < steps_left counts (Closing member)) }
    ensures bad { (file : File) (slot : ℕ) → IsErrOf result (Fault.Bad file slot)
        → IsTrue (D.view disk.old).tells
        → (classes : ℕ → ℕ) (lines : Lines) (journal : Journal) (found : _)
        → OpeningFacts classes lines journal (Closing member) (D.view disk.old) found → ⊥ }
    ensures goes_on { IfOk result (λ next. IsTrue (D.view disk.old).tells
        → (classes : ℕ → ℕ) (lines : Lines) (journal : Journal) (found : _)
        → OpeningFacts classes lines journal (Closing member) (D.view disk.old) found
        → OpeningFacts classes lines journal next (D.view disk.new) found) }
    ensures stands { IsTrue (D.view disk.old).tells
        → (classes : ℕ → ℕ) (lines : Lines) (journal : Journal) (found : _)
        → OpeningFacts classes lines journal (Closing member) (D.view disk.old) found
        → LeavesOnly (D.view disk.old) (D.view disk.new) (Kept classes lines journal) }
    ensures classes { IsTrue (D.view disk.old).tells
        → (by_area : ℕ → ℕ) → HaveTheirClasses by_area (Pending (D.view disk.old))
        → HaveTheirClasses by_area (Pending (D.view disk.new)) }
    ensures untouched { IsTrue (D.view disk.old).tells
        → KeepsRootAndSpaces (D.view disk.old).content (D.view disk.new).content }
    ensures others { IsTrue (D.view disk.old).tells → (file : File) → IsOther file
        → KeepsFile file (D.view disk.old) (D.view disk.new) }
{
    let next = close_next(disk, member)?;
    if next > 16 {
        return Ok(OpeningStage::Ending);
    }
    Ok(OpeningStage::Closing { member: next })
}

// Makes stable what was written, and goes on at a stage.
fn go_on_stable<D: Disk>(disk: &mut D, next: OpeningStage) -> Result<OpeningStage, Fault>
    ensures reads { OnlyReads (D.view disk.old) (D.view disk.new) }
    ensures failed { IsErrOf result Fault.Failed
        → Rose (D.view disk.old).faults (D.view disk.new).faults }
    ensures next { IfOk result (λ stage. stage ≡ next) }
    ensures stable { OnOk result (IsTrue (D.view disk.old).tells → IsStable (D.view disk.new)) }
    ensures bad { (file : File) (slot : ℕ) → IsErrOf result (Fault.Bad file slot) → ⊥ }
{
    make_stable(disk)?;
    Ok(next)
}

/// Goes on with an opening: one write or one barrier at most. The answer is the stage behind it.
pub fn step<D: Disk>(
    disk: &mut D,
    found: &Found,
    stage: OpeningStage,
) -> Result<OpeningStage, Fault>
    requires { IsStage stage }
    ensures told { (D.view disk.new).tells ≡ (D.view disk.old).tells }
    ensures no_fewer { (D.view disk.old).faults ≤ (D.view disk.new).faults }
    ensures failed { IsErrOf result Fault.Failed
        → Rose (D.view disk.old).faults (D.view disk.new).faults }
    ensures stage { IfOk result IsStage }

    // Each step brings the end nearer.
    ensures nearer { IfOk result (λ next. stage ≢ Opened
        → steps_left found.now.counts next < steps_left found.now.counts stage) }

    // No slot is refused behind the first step.
    ensures bad { (file : File) (slot : ℕ) → IsErrOf result (Fault.Bad file slot)
        → IsTrue (D.view disk.old).tells
        → (classes : ℕ → ℕ) (lines : Lines) (journal : Journal)
        → OpeningFacts classes lines journal stage (D.view disk.old) found.now → ⊥ }

    // What the opening rests on at a stage, it rests on at the next, with the same lines.
    ensures goes_on { IfOk result (λ next. IsTrue (D.view disk.old).tells
        → (classes : ℕ → ℕ) (lines : Lines) (journal : Journal)
        → OpeningFacts classes lines journal stage (D.view disk.old) found.now
        → OpeningFacts classes lines journal next (D.view disk.new) found.now) }

    // Whatever it answers, a crash at any moment of it leaves an image of the same lines.
    ensures stands { IsTrue (D.view disk.old).tells
        → (classes : ℕ → ℕ) (lines : Lines) (journal : Journal)
        → OpeningFacts classes lines journal stage (D.view disk.old) found.now
        → LeavesOnly (D.view disk.old) (D.view disk.new) (Kept classes lines journal) }

    // Whatever it answers, pages have the classes of their areas where they had, and are whose they were.
    ensures classes { IsTrue (D.view disk.old).tells
        → (classes : ℕ → ℕ) (lines : Lines) (journal : Journal)
        → OpeningFacts classes lines journal stage (D.view disk.old) found.now
        → (by_area : ℕ → ℕ) → HaveTheirClasses by_area (Pending (D.view disk.old))
        → HaveTheirClasses by_area (Pending (D.view disk.new)) }
    ensures untouched { IsTrue (D.view disk.old).tells
        → KeepsRootAndSpaces (D.view disk.old).content (D.view disk.new).content }

    // It writes no other file.
    ensures others { IsTrue (D.view disk.old).tells → (file : File) → IsOther file
        → KeepsFile file (D.view disk.old) (D.view disk.new) }
{
    match stage {
        OpeningStage::Undoing { member, entries } => undo_entries(disk, found, member, entries),
        OpeningStage::Restoring => go_on_stable(disk, OpeningStage::Closing { member: 1 }),
        OpeningStage::Closing { member } => close_header(disk, member),
        OpeningStage::Ending => go_on_stable(disk, OpeningStage::Opened),
        OpeningStage::Opened => Ok(OpeningStage::Opened),
    }
}
