// A session dies.
ghost use Rattle.std.specs.Prelude.{◌≡◌};
ghost use Rattle.line_store.specs.Seats.{IsMember, IsAlive, died};
ghost use Rattle.line_store.specs.Sights.{Dies};
ghost use Rattle.disk_store.specs.Dying.{recovery_at, dead_at, has_none};
ghost use Rattle.disk_store.specs.Seats.{stand_at};
ghost use Rattle.disk_store.specs.Shown.{DoesOn};

use disk_store::{Held, MemberStage, Recovery};
use line_seat::CommitStage;
use member_steps::CommitTurn;
use rdb_outside::Disk;
use rdb_types::Session;

// What is left of the recovery of a commit that was under way.
fn recovery(turn: CommitTurn, journalled: u32) -> Recovery
    ensures { result ≡ recovery_at turn journalled }
{
    match turn {
        CommitTurn::Entering(_) => Recovery::Ending,
        CommitTurn::Securing => Recovery::Ending,
        CommitTurn::Going(stage) => match stage {
            CommitStage::Changing(_) => Recovery::Undoing { left: journalled },
            CommitStage::Imaging(_) => Recovery::Undoing { left: journalled },
            CommitStage::Gathering => Recovery::Undoing { left: journalled },
            CommitStage::Sealing => Recovery::Judging,
            CommitStage::Landing => Recovery::Judging,
            CommitStage::Committed => Recovery::Undoing { left: journalled },
        },
    }
}

// The stage behind a session's death.
fn dead(stage: MemberStage, journalled: u32) -> MemberStage
    ensures { result ≡ dead_at stage journalled }
{
    match stage {
        MemberStage::Committing(turn) => MemberStage::Dead {
            commits: true,
            recovery: recovery(turn, journalled),
        },
        MemberStage::Dead { commits, recovery } => MemberStage::Dead { commits, recovery },
        _ => MemberStage::Dead {
            commits: false,
            recovery: Recovery::Ending,
        },
    }
}

// Whether what is written at a stage is no transaction's.
fn forgets(stage: MemberStage) -> bool
    ensures { result ≡ has_none stage }
{
    match stage {
        MemberStage::Outside => true,
        MemberStage::Beginning(_) => true,
        MemberStage::Closing => true,
        MemberStage::Reading => true,
        _ => false,
    }
}

/// A session dies, wherever it stands. Nothing is written: what its transaction left is its recovery's.
pub fn die<D: Disk>(_disk: &D, held: &mut Held, s: Session)
    requires member { IsMember s.number }
    requires alive { IsAlive (stand_at held.old.members s.number) }
    ensures does { DoesOn s.number (died (stand_at held.old.members s.number)) (Dies s.number) (D.view _disk.now) held.old (D.view _disk.now) held.new }
    ensures tables { held.new.tables ≡ held.old.tables }
{
    held.keeps_commits();
    let member = held.member(s);
    let stage = member.stage;
    let next = dead(stage, member.journalled);
    if forgets(stage) {
        held.forget(s, next);
    } else {
        held.set_dead(s, next);
    }
}
