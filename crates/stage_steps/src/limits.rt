//! Statements that the store refuses at a limit.
ghost use Rattle.std.specs.Prelude.{◌≡◌, []};
ghost use Rattle.stage_steps.specs.Turns.{at_stage};

use crate::happening::{Happening, Turned};
use crate::items::refused;
use crate::terms::Terms;
use rdo_ast::reply::Reply;
use rdo_ast::syntax::Item;
use session_limits::Stage;
use std::alloc::Global;

/// Refuses a statement at a limit: its transaction goes on.
pub fn refuse_at_limit(alloc: Global, terms: Terms, item: Item, reply: Reply) -> Turned
    ensures phase { result.phase ≡ at_stage terms Stage.Between }
    ensures happened { result.happened ≡ Happening.Answered (record { item = item; keys = []; reply = reply }) }
{
    Turned {
        phase: terms.at(Stage::Between),
        happened: Happening::Answered(refused(alloc, item, reply)),
    }
}
