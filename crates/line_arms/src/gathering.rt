//! A statement whose needs are locked and read in turn.
ghost use Rattle.std.specs.Prelude.{◌≡◌};
ghost use Rattle.line_store.specs.Seats.{IsMember};
ghost use Rattle.job_steps.specs.session_stands.Seated.{IsSeated};
ghost use Rattle.job_steps.specs.stage_steps.Scenes.{ComesIn, scene};
ghost use Rattle.room_steps.specs.gathering_steps.Rounds.{gathers_at};

use crate::working::want_lock;
use given_rooms::Rooms;
use job_steps::{Common, Gather, Terms, Turned};
use line_store::LineStore;
use line_view::Need;
use rdb_types::Session;
use reached_changes::Reaches;
use room_steps::{Given, Round, fetch_gathered, house, lodge};

/// One step of a round of needs. For a room a line is named first.
pub(crate) fn go_on_gathering<S: Reaches, L: LineStore>(
    common: &mut Common<L>,
    s: Session,
    terms: Terms,
    rooms: &mut Rooms,
    round: Round,
    gather: Gather,
) -> Turned
    requires member { IsMember s.number }
    requires seated { IsSeated (L.sight common.old.store).stand common.old.tree s.number (gathers_at terms round gather) }
    ensures { ComesIn S.stands s.number (scene common.old.word (L.sight common.old.store) common.old.tree) (gathers_at terms round gather)
        (scene common.new.word (L.sight common.new.store) common.new.tree) result.phase result.happened }
{
    match gather {
        Gather::Locking(Need::Room(room)) => house::<S, L>(common, s, terms, rooms, round, room),
        Gather::Locking(_) | Gather::Housing(..) => {
            want_lock::<S, L>(common, s, terms, round.at(gather))
        }
        Gather::Reading(need) => fetch_gathered::<S, L>(common, s, terms, round, need),
        Gather::Lodging(room, key) => {
            lodge::<S, L>(common, s, terms, rooms, round, Given { room, key })
        }
    }
}
