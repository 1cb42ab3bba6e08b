// Lines of a change are pushed aside for readers, or have nothing to push.
ghost use Rattle.std.specs.Prelude.{◌≡◌, Ok};
ghost use Rattle.line_store.specs.Seats.{IsMember};
ghost use Rattle.line_store.specs.Sights.{IsLess, MayAnswer, Steps, stepped_to};
ghost use Rattle.line_store.specs.declared.answers.Stepped.TheVariants as stepped;
ghost use Rattle.line_moves.specs.Changes.{IsPlaceOf};
ghost use Rattle.disk_store.specs.ChangeSteps.{IsNext, Unpushed};
ghost use Rattle.disk_store.specs.OwnFiles.{WritesOwn};
ghost use Rattle.disk_store.specs.Seats.{stand_at};
ghost use Rattle.disk_store.specs.Shown.{DoesOn, sight_of};

use disk_store::Held;
use line_moves::{Place, place_of};
use line_store::{Fault, Stepped};
use rdb_outside::Disk;
use rdb_types::{Dbkey, Session};

// The line of this key, which is the session's next one, is pushed aside, or passed where the tables never used it.
fn push_key<D: Disk>(
    disk: &mut D,
    held: &mut Held,
    s: Session,
    key: Dbkey,
    place: Place,
) -> Result<Stepped, Fault>
    requires member { IsMember s.number }
    requires changes { Unpushed held.old.members s.number }
    requires next { IsNext held.old.members s.number key }
    requires place { IsPlaceOf key place }
    ensures answers { MayAnswer (stand_at held.old.members s.number) result }
    ensures comes { DoesOn s.number (stepped_to (stand_at held.old.members s.number) result)
        (Steps s.number result) (D.view disk.old) held.old (D.view disk.new) held.new }
    ensures less { result ≡ Ok stepped.More → IsLess s.number (sight_of (D.view disk.old) held.old) (sight_of (D.view disk.new) held.new) }
    ensures writes { WritesOwn (D.view disk.old) (D.view disk.new) }
    ensures tables { held.new.tables ≡ held.old.tables }
{
    held.sound();
    if let Err(fault) = held.push_next(disk, s, key, place) {
        return Err(fault);
    }
    Ok(Stepped::More)
}

// The next line of the session is pushed aside, or has nothing to push.
pub(crate) fn push_line<D: Disk>(
    disk: &mut D,
    held: &mut Held,
    s: Session,
) -> Result<Stepped, Fault>
    requires member { IsMember s.number }
    requires changes { Unpushed held.old.members s.number }
    ensures answers { MayAnswer (stand_at held.old.members s.number) result }
    ensures comes { DoesOn s.number (stepped_to (stand_at held.old.members s.number) result)
        (Steps s.number result) (D.view disk.old) held.old (D.view disk.new) held.new }
    ensures less { result ≡ Ok stepped.More → IsLess s.number (sight_of (D.view disk.old) held.old) (sight_of (D.view disk.new) held.new) }
    ensures writes { WritesOwn (D.view disk.old) (D.view disk.new) }
    ensures tables { held.new.tables ≡ held.old.tables }
{
    held.sound();
    let member = held.member(s);
    let key = member.written.keys()[member.pushed as usize];
    let Some(place) = place_of(key) else {
        unreachable!()
    };
    push_key(disk, held, s, key, place)
}
