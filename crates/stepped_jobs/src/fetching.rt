ghost use Rattle.std.specs.Prelude.{◌≡◌, Ok, List};
ghost use Rattle.lock_needs.specs.declared.need.Need.{Need as LockNeed};
ghost use Rattle.line_view.specs.Knowledge.{IsInOrder, Agrees};
ghost use Rattle.line_view.specs.Stops.{Lacks};
ghost use Rattle.line_view.specs.Held.{knows};
ghost use Rattle.line_store.specs.declared.answers.Progress.TheVariants.{Done, More as Unread};
ghost use Rattle.line_store.specs.Seats.{IsMember, IsAtRest};
ghost use Rattle.line_store.specs.Shelves.{Shelf, seen_by};
ghost use Rattle.line_store.specs.Sights.{Does, Reads, IsLess};
ghost use Rattle.kept_apart.specs.Alike.{IsGuarded};
ghost use Rattle.stepped_jobs.specs.Needs.{IsRead as IsReadFrom, IsLocked};
ghost use Rattle.stepped_jobs.specs.More.{KnowsMore};

use line_store::{LineStore, Progress, ReadStop};
use line_view::{Known, Need};
use rdb_types::Session;

/// Reads what a job lacked, a line or an area, as a session's transaction sees it. Where there is more to do it is called again.
pub fn fetch<L: LineStore>(
    store: &mut L,
    s: Session,
    need: Need,
    known: &mut Known,
) -> Result<Progress, ReadStop>
    requires member { IsMember s.number }
    requires seat { IsAtRest ((L.sight store.old).stand s.number) }
    requires need { IsReadFrom need }
    ensures learnt { result ≡ Ok Done → Lacks (knows known.new) need → ⊥ }
    ensures agrees { (h : Shelf) → (L.sight store.old).shows h → IsInOrder (seen_by s.number h) → Agrees (knows known.old) (seen_by s.number h)
        → Agrees (knows known.new) (seen_by s.number h) }
    ensures guarded { (got : List LockNeed) → IsLocked got need → IsGuarded got (knows known.old) → IsGuarded got (knows known.new) }
    ensures more { KnowsMore known.old known.new }
    ensures read { Does s.number ((L.sight store.old).stand s.number) (Reads s.number result) (L.sight store.old) (L.sight store.new) }
    ensures less { result ≡ Ok Unread → IsLess s.number (L.sight store.old) (L.sight store.new) }
{
    match need {
        Need::Line(key) => store.learn_line(s, key, known),
        Need::Area(area) => store.learn_area(s, area, known),
        Need::Room(_) => unreachable!(),
    }
}
