// What comes of the beginning of a read-only transaction.
ghost use Rattle.std.specs.Prelude.{◌≡◌, [], false};
ghost use Rattle.line_view.specs.Held.{nothing};
ghost use Rattle.stage_steps.specs.Turns.{reads_at};

use crate::happening::{Happening, Turned};
use crate::items::refused;
use crate::terms::ReaderTerms;
use line_view::Known;
use rdo_ast::reply::{Reply, Standing};
use rdo_ast::syntax::Item;
use session_limits::{Phase, ReaderStage, ReaderWork};
use std::alloc::Global;

/// A read-only transaction has begun with its first item, at which this work is next.
pub(crate) fn begun(alloc: Global, item: Item, work: ReaderWork) -> Turned
    ensures phase { result.phase ≡ reads_at (record { standing = Standing.Closed; known = nothing; spoken = false }) (ReaderStage.Working item work) }
    ensures happened { result.happened ≡ Happening.Began Standing.ReadOnly }
{
    let terms = ReaderTerms {
        standing: Standing::Closed,
        known: Known::new(alloc),
        spoken: false,
    };
    Turned {
        phase: terms.at(ReaderStage::Working(item, work)),
        happened: Happening::Began(Standing::ReadOnly),
    }
}

/// No memory was found for an item that was said outside a transaction, and none has begun.
pub(crate) fn unbegun(alloc: Global, item: Item) -> Turned
    ensures phase { result.phase ≡ Phase.Outside }
    ensures happened { result.happened ≡ Happening.Answered (record { item = item; keys = []; reply = Reply.NoMemory }) }
{
    Turned {
        phase: Phase::Outside,
        happened: Happening::Answered(refused(alloc, item, Reply::NoMemory)),
    }
}
