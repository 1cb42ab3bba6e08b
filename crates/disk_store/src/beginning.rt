// A read-write transaction draws its number, below a ceiling that stands in each root which a crash may leave.
ghost use Rattle.std.specs.Prelude.{◌≡◌, ◌≤◌, ◌<◌, ◌+◌, ◌^◌, ℕ, Some, Ok, length, slice_get, true, false, IfSome, IfNone, IsErrOf};
ghost use Rattle.rdb_types.specs.declared.file.FileId.{FileId as File};
ghost use Rattle.root_file.specs.Root.{IsAllowed};
ghost use Rattle.line_store.specs.Seats.{IsMember};
ghost use Rattle.line_store.specs.Shelves.{Shelf};
ghost use Rattle.line_store.specs.Sights.{Steps, stepped_to, MayAnswer, IsLess};
ghost use Rattle.line_store.specs.declared.answers.Stepped.TheVariants as stepped;
ghost use Rattle.disk_store.specs.declared.member.Ceiling.TheVariants.{Asking, Raised};
ghost use Rattle.disk_store.specs.declared.member.Member.{Member as Sits};
ghost use Rattle.disk_store.specs.declared.member.MemberStage.TheVariants as stage;
ghost use Rattle.disk_store.specs.Memory.{with_number};
ghost use Rattle.disk_store.specs.Numbers.{kept_at, kept_in, with_settled, with_raised};
ghost use Rattle.disk_store.specs.OwnFiles.{WritesOwn};
ghost use Rattle.disk_store.specs.Seats.{stand_at, IsAtStage};
ghost use Rattle.disk_store.specs.Shown.{DoesOn, Shown, sight_of};

use crate::{Ceiling, Held, Member, MemberStage};
use ledger_versions::{raise_ceiling, settle};
use line_moves::root_file;
use line_store::{Fault, Stepped};
use member_rooms::NUMBERS;
use rdb_outside::Disk;
use rdb_types::Session;
use root_file::Root;

/// No ceiling may be higher.
const LAST_CEILING: u64 = 4_611_686_018_427_387_904;

// How many numbers are kept free at a stage.
fn kept_for(stage: MemberStage) -> u64
    ensures value { result ≡ kept_at stage }
    ensures few { result ≤ 1 }
{
    match stage {
        MemberStage::Beginning(Ceiling::Raised) => 1,
        _ => 0,
    }
}

// How many numbers are kept free for those among these members that wait for a barrier.
fn kept_among(members: &[Member]) -> u64
    ensures value { result ≡ kept_in members.now }
    ensures few { result ≤ length members.now }
{
    let mut kept = 0;
    for member in members {
        kept += kept_for(member.stage);
    }
    kept
}

impl Held {
    // How many numbers are kept free.
    fn kept(&self) -> u64
        ensures value { result ≡ kept_in self.now.members }
        ensures few { result ≤ 17 }
    {
        kept_among(&self.members)
    }

    // The root with a higher ceiling, or none where the numbers are used up.
    fn raised(&self) -> Option<Root>
        ensures allowed { IfSome result (λ root. IsAllowed root) }
        ensures whole { IfSome result (λ root. root.state ≡ 1) }
        ensures limits { IfSome result (λ root. root.limits ≡ self.now.limits) }
        ensures higher { IfSome result (λ root. root.ceiling ≡ self.now.numbers.written + 64) }
        ensures none { IfNone result (2 ^ 62 < self.now.numbers.written + 64) }
    {
        let written = self.numbers.written;
        if written > LAST_CEILING - NUMBERS {
            return None;
        }
        Some(Root {
            format: 1,
            state: 1,
            limits: self.limits,
            ceiling: written + NUMBERS,
            applied: self.numbers.applied,
        })
    }

    // A root with this ceiling was written for a session.
    fn set_raised(&mut self, s: Session, ceiling: u64)
        requires member { IsMember s.number }
        requires allowed { ceiling ≤ 2 ^ 62 }
        ensures within { s.number < length self.old.members }
        ensures comes { (m : Sits) × (slice_get self.old.members s.number ≡ Some m)
            × (self.new ≡ with_raised s.number ceiling m self.old) }
    {
        let member = &mut self.members[s.number as usize];
        member.stage = MemberStage::Beginning(Ceiling::Raised);
        self.numbers.written = ceiling;
    }

    // Behind a barrier the ceiling is the one that was written last.
    fn settle_ceiling(&mut self)
        ensures { self.new ≡ with_settled self.old }
    {
        self.numbers.ceiling = self.numbers.written;
    }
}

/// A step of a beginning: the transaction draws the next number, where one is below the ceiling that isn't kept for another. Else a root with a higher ceiling is written, unless one is already that isn't stable yet. Where numbers are used up it answers that the root is bad.
pub fn ask<D: Disk>(disk: &mut D, held: &mut Held, s: Session) -> Result<Stepped, Fault>
    requires member { IsMember s.number }
    requires begins { IsAtStage held.old.members s.number (stage.Beginning Asking) }
    ensures answers { MayAnswer (stand_at held.old.members s.number) result }
    ensures comes { DoesOn s.number (stepped_to (stand_at held.old.members s.number) result)
        (Steps s.number result) (D.view disk.old) held.old (D.view disk.new) held.new }
    ensures less { result ≡ Ok stepped.More → IsLess s.number (sight_of (D.view disk.old) held.old) (sight_of (D.view disk.new) held.new) }
    ensures used_up { (file : File) (slot : ℕ) → IsErrOf result (Fault.Bad file slot) → 2 ^ 62 < held.old.numbers.written + 64 }

    // One slot at most is written, of the database's own files.
    ensures writes { WritesOwn (D.view disk.old) (D.view disk.new) }
    ensures tables { held.new.tables ≡ held.old.tables }
{
    let free = held.numbers.ceiling.saturating_sub(held.numbers.next);
    if held.kept() < free {
        held.draw_number(s);
        return Ok(Stepped::Done);
    }
    if held.numbers.ceiling < held.numbers.written {
        held.set_stage(s, MemberStage::Beginning(Ceiling::Raised));
        return Ok(Stepped::More);
    }
    let Some(root) = held.raised() else {
        return Err(Fault::Bad(root_file(), 0));
    };
    let Ok(()) = raise_ceiling(disk, &root) else {
        return Err(Fault::Failed);
    };
    held.set_raised(s, root.ceiling);
    Ok(Stepped::More)
}

/// The last step of a beginning for which a number is kept: behind a barrier it is below the ceiling, and the transaction draws it.
pub fn draw<D: Disk>(disk: &mut D, held: &mut Held, s: Session) -> Result<Stepped, Fault>
    requires member { IsMember s.number }
    requires begins { IsAtStage held.old.members s.number (stage.Beginning Raised) }
    ensures answers { MayAnswer (stand_at held.old.members s.number) result }
    ensures comes { DoesOn s.number (stepped_to (stand_at held.old.members s.number) result)
        (Steps s.number result) (D.view disk.old) held.old (D.view disk.new) held.new }
    ensures less { result ≡ Ok stepped.More → IsLess s.number (sight_of (D.view disk.old) held.old) (sight_of (D.view disk.new) held.new) }

    // The number that was kept is there.
    ensures kept { (file : File) (slot : ℕ) → IsErrOf result (Fault.Bad file slot)
        → (h : Shelf) → Shown (D.view disk.old) held.old h → ⊥ }

    // One slot at most is written, of the database's own files.
    ensures writes { WritesOwn (D.view disk.old) (D.view disk.new) }
    ensures tables { held.new.tables ≡ held.old.tables }
{
    let Ok(()) = settle(disk) else {
        return Err(Fault::Failed);
    };
    held.settle_ceiling();
    if held.numbers.next >= held.numbers.ceiling {
        return Err(Fault::Bad(root_file(), 0));
    }
    held.draw_number(s);
    Ok(Stepped::Done)
}
