// What an ended transaction left is put away: one write, which closes its header. Of a session that died, too.
ghost use Rattle.std.specs.Prelude.{◌≡◌, ◌⊎◌, Bool, Ok, OnOk};
ghost use Rattle.line_store.specs.Seats.{IsMember};
ghost use Rattle.line_store.specs.Sights.{Steps, stepped_to, MayAnswer, IsLess};
ghost use Rattle.line_store.specs.declared.answers.Stepped.TheVariants as stepped;
ghost use Rattle.disk_store.specs.declared.member.MemberStage.TheVariants as stage;
ghost use Rattle.disk_store.specs.declared.member.Recovery.TheVariants as recovery;
ghost use Rattle.disk_store.specs.Giving.{HasNoSlots};
ghost use Rattle.disk_store.specs.OwnFiles.{WritesOwn};
ghost use Rattle.disk_store.specs.Seats.{stand_at, IsAtStage};
ghost use Rattle.disk_store.specs.Shown.{DoesOn, sight_of};

use disk_seats::close;
use disk_store::{Held, MemberStage};
use line_store::{Fault, Stepped};
use rdb_outside::Disk;
use rdb_types::Session;

/// A step of a session whose transaction is rolled back, or is committed: its header is closed, and slots of the snapshot files are given back that it doesn't take any more: those that were set aside for it, and those that it pushed into where no reader wants them.
pub fn put_away<D: Disk>(disk: &mut D, held: &mut Held, s: Session) -> Result<Stepped, Fault>
    requires member { IsMember s.number }
    requires ended { IsAtStage held.old.members s.number stage.RollingBack ⊎ IsAtStage held.old.members s.number stage.Closing }
    ensures answers { MayAnswer (stand_at held.old.members s.number) result }
    ensures comes { DoesOn s.number (stepped_to (stand_at held.old.members s.number) result)
        (Steps s.number result) (D.view disk.old) held.old (D.view disk.new) held.new }
    ensures slots { OnOk result (HasNoSlots s.number held.new) }
    ensures less { result ≡ Ok stepped.More → IsLess s.number (sight_of (D.view disk.old) held.old) (sight_of (D.view disk.new) held.new) }

    // One slot at most is written, of the database's own files.
    ensures writes { WritesOwn (D.view disk.old) (D.view disk.new) }
    ensures tables { held.new.tables ≡ held.old.tables }
{
    let Ok(()) = close(disk, s.number) else {
        return Err(Fault::Failed);
    };
    held.forget(s, MemberStage::Outside);
    held.give_slots(s);
    Ok(Stepped::Done)
}

/// A step of the recovery of a session that died without a page written: its header is closed, its transaction is undone, and its slots are given back as in `put_away`.
pub fn bury<D: Disk>(disk: &mut D, held: &mut Held, s: Session) -> Result<Stepped, Fault>
    requires member { IsMember s.number }
    requires died { (commits : Bool) × IsAtStage held.old.members s.number (stage.Dead commits recovery.Ending) }
    ensures answers { MayAnswer (stand_at held.old.members s.number) result }
    ensures comes { DoesOn s.number (stepped_to (stand_at held.old.members s.number) result)
        (Steps s.number result) (D.view disk.old) held.old (D.view disk.new) held.new }
    ensures slots { OnOk result (HasNoSlots s.number held.new) }
    ensures less { result ≡ Ok stepped.More → IsLess s.number (sight_of (D.view disk.old) held.old) (sight_of (D.view disk.new) held.new) }

    // One slot at most is written, of the database's own files.
    ensures writes { WritesOwn (D.view disk.old) (D.view disk.new) }
    ensures tables { held.new.tables ≡ held.old.tables }
{
    let Ok(()) = close(disk, s.number) else {
        return Err(Fault::Failed);
    };
    held.forget(s, MemberStage::Outside);
    held.give_slots(s);
    Ok(Stepped::Recovered {
        is_committed: false,
        moment: disk.moment(),
    })
}
