//! What a job lacked is named, and read in turn once it is locked.
ghost use Rattle.std.specs.Prelude.{List};
ghost use Rattle.rdo_ast.specs.Views.{uttered_of};
ghost use Rattle.line_store.specs.Seats.{IsMember, IsWriting};
ghost use Rattle.line_view.specs.Held.{knows};
ghost use Rattle.session_jobs.specs.Jobs.{IsFound};
ghost use Rattle.stage_steps.specs.Scenes.{ComesIn, scene};
ghost use Rattle.stage_steps.specs.Turns.{at_stage};
ghost use Rattle.gathering_steps.specs.Rounds.{GathersFrom, gathers_at};

use crate::round::Round;
use line_store::{LineStore, Progress, ReadStop};
use line_view::Need;
use rdb_types::Session;
use rdo_ast::syntax::Item;
use session_jobs::{Needs, Statements};
use stage_steps::{Common, Gather, Phase, Stage, Terms, Turned, Work, failed, forgo, quiet};
use stepped_jobs::fetch;

/// What a job lacked is wanted: this need first, and then those behind it.
pub fn gather<S: Statements>(terms: Terms, item: Item, next: Need, later: Needs) -> Phase
    ensures { GathersFrom S.stands terms item next later result }
{
    let round = Round {
        item,
        later,
        place: 0,
    };
    terms.at(round.at(Gather::Locking(next)))
}

/// Reads a need that is locked; then the next one is wanted, and behind the last the job is due again.
pub fn fetch_gathered<S: Statements, L: LineStore>(
    common: &mut Common<L>,
    s: Session,
    terms: Terms,
    round: Round,
    need: Need,
) -> Turned
    requires member { IsMember s.number }
    requires seat { IsWriting ((L.sight common.old.store).stand s.number) }
    ensures { ComesIn S.stands s.number (scene common.old.word (L.sight common.old.store) common.old.tree) (gathers_at terms round (Gather.Reading need))
        (scene common.new.word (L.sight common.new.store) common.new.tree) result.phase result.happened }
{
    // (a room is lodged in, and not fetched)
    if let Need::Room(_) = need {
        return quiet(terms.at(Stage::Working(round.item, Work::Due)));
    }
    let mut terms = terms;
    match fetch(&mut common.store, s, need, &mut terms.known) {
        Ok(Progress::Done) => quiet(terms.at(round.behind())),
        Ok(Progress::More) => quiet(terms.at(round.at(Gather::Reading(need)))),
        Err(ReadStop::NoMemory) => forgo::<S, L>(common, s, terms, round.item),
        Err(ReadStop::Fault(fault)) => failed(fault, terms.at(round.at(Gather::Reading(need)))),
    }
}
