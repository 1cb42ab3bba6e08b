// The steps of a change.
ghost use Rattle.std.specs.Prelude.{◌≡◌, Ok};
ghost use Rattle.line_store.specs.Seats.{IsMember};
ghost use Rattle.line_store.specs.Sights.{IsLess, MayAnswer, Steps, stepped_to};
ghost use Rattle.line_store.specs.declared.answers.Stepped.TheVariants as stepped;
ghost use Rattle.disk_store.specs.declared.member.MemberStage.TheVariants as stage;
ghost use Rattle.disk_store.specs.ChangeSteps.{ThroughAt};
ghost use Rattle.disk_store.specs.OwnFiles.{WritesOwn};
ghost use Rattle.disk_store.specs.Seats.{IsAtStage, stand_at};
ghost use Rattle.disk_store.specs.Shown.{DoesOn, sight_of};

use crate::journalling::journal_key;
use crate::pushing::push_line;
use disk_store::Held;
use line_store::{Fault, Stepped};
use rdb_outside::Disk;
use rdb_types::Session;

// Nothing is left of the change, and the slots that it didn't take are given back.
fn end_change<D: Disk>(_disk: &D, held: &mut Held, s: Session)
    requires member { IsMember s.number }
    requires through { ThroughAt held.old.members s.number }
    ensures does { DoesOn s.number (stepped_to (stand_at held.old.members s.number) (Ok stepped.Done))
        (Steps s.number (Ok stepped.Done)) (D.view _disk.now) held.old (D.view _disk.now) held.new }
    ensures tables { held.new.tables ≡ held.old.tables }
{
    held.sound();
    held.end_change(s);
}

/// A step of a change: the header of the session's journal, the before-image of a line that its transaction wrote for the first time, or that line as it stood, for readers. One write at most, without a barrier, and behind the last line none. Behind a fault the transaction can only die.
pub fn change_step<D: Disk>(disk: &mut D, held: &mut Held, s: Session) -> Result<Stepped, Fault>
    requires member { IsMember s.number }
    requires changes { IsAtStage held.old.members s.number stage.Changing }
    ensures answers { MayAnswer (stand_at held.old.members s.number) result }
    ensures comes { DoesOn s.number (stepped_to (stand_at held.old.members s.number) result)
        (Steps s.number result) (D.view disk.old) held.old (D.view disk.new) held.new }
    ensures less { result ≡ Ok stepped.More → IsLess s.number (sight_of (D.view disk.old) held.old) (sight_of (D.view disk.new) held.new) }

    // One slot at most is written, of the database's own files.
    ensures writes { WritesOwn (D.view disk.old) (D.view disk.new) }
    ensures tables { held.new.tables ≡ held.old.tables }
{
    let member = held.member(s);
    let count = member.written.keys().len() as u32;
    let journalled = member.journalled;
    let pushed = member.pushed;
    if journalled < count {
        return journal_key(disk, held, s);
    }
    if pushed < count {
        return push_line(disk, held, s);
    }
    end_change(disk, held, s);
    Ok(Stepped::Done)
}
