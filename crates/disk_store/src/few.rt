// How many steps are left for a session is a number that a loop can count to.
ghost use Rattle.std.specs.Prelude.{◌≡◌, ◌==◌, ◌<◌, ◌^◌, ℕ, false, List};
ghost use Rattle.line_store.specs.Seats.{IsMember};
ghost use Rattle.disk_store.specs.declared.member.Member.{Member as Sits};
ghost use Rattle.disk_store.specs.Seats.{left_in, steps_at};

use crate::{Held, MemberStage, Recovery};
use rdb_types::Session;

// The before-images that are to be put back at a stage.
fn left_at(stage: MemberStage) -> u32
    ensures { result ≡ left_in stage }
{
    match stage {
        MemberStage::Dead {
            commits: _,
            recovery: Recovery::Undoing { left },
        } => left,
        _ => 0,
    }
}

/// The steps of a session are few. So are those of all, behind a call that leaves others with as many as they had.
pub fn steps_are_few(held: &Held, s: Session)
    requires { IsMember s.number }
    ensures its { steps_at held.now.members s.number < 2 ^ 64 }
    ensures all { (before : List Sits) → ((t : ℕ) → (t == s.number) ≡ false → steps_at held.now.members t ≡ steps_at before t)
        → ((t : ℕ) → steps_at before t < 2 ^ 64) → (t : ℕ) → steps_at held.now.members t < 2 ^ 64 }
{
    let member = held.member(s);
    let _lines = member.written.keys();
    let _journalled = member.journalled;
    let _left = left_at(member.stage);
}
