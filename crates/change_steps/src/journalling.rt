// Before-images of a change are written.
ghost use Rattle.std.specs.Prelude.{◌≡◌, Ok};
ghost use Rattle.line_store.specs.Seats.{IsMember};
ghost use Rattle.line_store.specs.Sights.{IsLess, MayAnswer, Steps, stepped_to};
ghost use Rattle.line_store.specs.declared.answers.Stepped.TheVariants as stepped;
ghost use Rattle.disk_store.specs.ChangeSteps.{Unjournalled};
ghost use Rattle.disk_store.specs.OwnFiles.{WritesOwn};
ghost use Rattle.disk_store.specs.Seats.{stand_at};
ghost use Rattle.disk_store.specs.Shown.{DoesOn, sight_of};

use disk_store::{Held, MemberStage};
use line_moves::{place_of, ruj_file};
use line_store::{Fault, Stepped};
use member_steps::{Journalled, journal_next};
use rdb_outside::Disk;
use rdb_types::Session;

// The next before-image of the session, or the header before the first. Behind a fault the transaction can only die.
pub(crate) fn journal_key<D: Disk>(
    disk: &mut D,
    held: &mut Held,
    s: Session,
) -> Result<Stepped, Fault>
    requires member { IsMember s.number }
    requires changes { Unjournalled held.old.members s.number }
    ensures answers { MayAnswer (stand_at held.old.members s.number) result }
    ensures comes { DoesOn s.number (stepped_to (stand_at held.old.members s.number) result)
        (Steps s.number result) (D.view disk.old) held.old (D.view disk.new) held.new }
    ensures less { result ≡ Ok stepped.More → IsLess s.number (sight_of (D.view disk.old) held.old) (sight_of (D.view disk.new) held.new) }
    ensures writes { WritesOwn (D.view disk.old) (D.view disk.new) }
    ensures tables { held.new.tables ≡ held.old.tables }
{
    held.sound();
    let member = held.member(s);
    let tsn = member.tsn;
    let written = member.journalled;
    let named = member.named;
    let key = member.written.keys()[written as usize];
    let Some(place) = place_of(key) else {
        unreachable!()
    };
    match journal_next(disk, s.number, tsn, written, key, place) {
        Ok(Journalled::BeforeImage) => {
            held.count_journalled(s);
            Ok(Stepped::More)
        }
        Ok(Journalled::Header) => {
            // a header that was written stands, on each disk that tells its content
            if named {
                held.set_stage(s, MemberStage::Broken);
                return Err(Fault::Bad(ruj_file(s.number), 0));
            }
            held.note_named(s);
            Ok(Stepped::More)
        }
        Err(fault) => {
            held.set_stage(s, MemberStage::Broken);
            Err(fault)
        }
    }
}
