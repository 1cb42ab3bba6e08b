// One step of what is under way for a session, by its stage.
ghost use Rattle.std.specs.Prelude.{◌≡◌, Ok};
ghost use Rattle.line_store.specs.declared.answers.Stepped.TheVariants as stepped;
ghost use Rattle.line_store.specs.Seats.{IsMember, IsUnderWay};
ghost use Rattle.line_store.specs.Sights.{Steps, stepped_to, MayAnswer, IsLess};
ghost use Rattle.change_steps.specs.disk_store.Grown.{Grow};
ghost use Rattle.change_steps.specs.disk_store.OwnFiles.{WritesOwn};
ghost use Rattle.change_steps.specs.disk_store.Seats.{stand_at, IsAtStage};
ghost use Rattle.change_steps.specs.disk_store.Shown.{DoesOn, sight_of};

use change_steps::{Ceiling, Held, MemberStage, ask, change_step, draw};
use commit_steps::commit_step;
use line_store::{Fault, Stepped};
use rdb_outside::Disk;
use rdb_types::Session;
use recovery_steps::{put_away, recover};

// Where a session's transaction is.
fn stage_of(held: &Held, s: Session) -> MemberStage
    requires { IsMember s.number }
    ensures { IsAtStage held.now.members s.number result }
{
    held.member(s).stage
}

/// One step of what is under way for a session: one write or one barrier at most, and no memory.
pub(crate) fn step<D: Disk>(disk: &mut D, held: &mut Held, s: Session) -> Result<Stepped, Fault>
    requires member { IsMember s.number }
    requires seat { IsUnderWay (stand_at held.old.members s.number) }
    ensures answers { MayAnswer (stand_at held.old.members s.number) result }
    ensures comes { DoesOn s.number (stepped_to (stand_at held.old.members s.number) result)
        (Steps s.number result) (D.view disk.old) held.old (D.view disk.new) held.new }
    ensures less { result ≡ Ok stepped.More → IsLess s.number (sight_of (D.view disk.old) held.old) (sight_of (D.view disk.new) held.new) }

    // One slot at most is written, of the database's own files.
    ensures writes { WritesOwn (D.view disk.old) (D.view disk.new) }

    // Pages of areas stay theirs, of their classes.
    ensures grows { Grow held.old.tables held.new.tables }
{
    match stage_of(held, s) {
        MemberStage::Beginning(Ceiling::Asking) => ask(disk, held, s),
        MemberStage::Beginning(Ceiling::Raised) => draw(disk, held, s),
        MemberStage::Changing => change_step(disk, held, s),
        MemberStage::Committing(_) => commit_step(disk, held, s),
        MemberStage::RollingBack | MemberStage::Closing => put_away(disk, held, s),
        MemberStage::Dead { commits, recovery } => recover(disk, held, s, commits, recovery),
        MemberStage::Outside
        | MemberStage::Writing
        | MemberStage::Broken
        | MemberStage::Prepared
        | MemberStage::Reading => unreachable!(),
    }
}
