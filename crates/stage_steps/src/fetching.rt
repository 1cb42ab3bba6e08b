//! What the job of a statement lacked is read, once it is locked.
ghost use Rattle.line_store.specs.Seats.{IsMember, IsWriting};
ghost use Rattle.stage_steps.specs.Scenes.{ComesIn, scene};
ghost use Rattle.stage_steps.specs.Turns.{at_stage};

use crate::common::Common;
use crate::happening::{Turned, failed, quiet};
use crate::terms::Terms;
use crate::working::forgo;
use line_store::{LineStore, Progress, ReadStop};
use line_view::Need;
use rdb_types::Session;
use rdo_ast::syntax::Item;
use session_jobs::Statements;
use session_limits::{Stage, Work};
use stepped_jobs::fetch;

/// Reads what the job of a statement lacked; then the job is due again.
pub fn fetch_locked<S: Statements, L: LineStore>(
    common: &mut Common<L>,
    s: Session,
    terms: Terms,
    item: Item,
    need: Need,
) -> Turned
    requires member { IsMember s.number }
    requires seat { IsWriting ((L.sight common.old.store).stand s.number) }
    ensures { ComesIn S.stands s.number (scene common.old.word (L.sight common.old.store) common.old.tree) (at_stage terms (Stage.Working item (Work.Fetching need)))
        (scene common.new.word (L.sight common.new.store) common.new.tree) result.phase result.happened }
{
    // (a room is lodged in, and not fetched)
    if let Need::Room(_) = need {
        return quiet(terms.at(Stage::Working(item, Work::Due)));
    }
    let mut terms = terms;
    match fetch(&mut common.store, s, need, &mut terms.known) {
        Ok(Progress::Done) => quiet(terms.at(Stage::Working(item, Work::Due))),
        Ok(Progress::More) => quiet(terms.at(Stage::Working(item, Work::Fetching(need)))),
        Err(ReadStop::NoMemory) => forgo::<S, L>(common, s, terms, item),
        Err(ReadStop::Fault(fault)) => {
            failed(fault, terms.at(Stage::Working(item, Work::Fetching(need))))
        }
    }
}
