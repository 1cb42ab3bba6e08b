//! The job of a statement is worked, and what it came to is taken.
ghost use Rattle.std.specs.Prelude.{◌≡◌};
ghost use Rattle.rdo_ast.specs.Views.{uttered_of};
ghost use Rattle.line_store.specs.Seats.{IsMember, IsWriting};
ghost use Rattle.line_view.specs.Held.{knows};
ghost use Rattle.session_jobs.specs.Jobs.{IsFound};
ghost use Rattle.gathering_steps.specs.session_states.declared.stage.Stage.TheVariants.{Working};
ghost use Rattle.gathering_steps.specs.session_states.declared.stage.Work.TheVariants.{Out};
ghost use Rattle.gathering_steps.specs.stage_steps.Leaving.{NamesBad, OnUnworked};
ghost use Rattle.gathering_steps.specs.stage_steps.Scenes.{ComesIn, scene};
ghost use Rattle.gathering_steps.specs.stage_steps.Turns.{at_stage};

use crate::reserving::keep;
use gathering_steps::{Common, Happening, Stage, Terms, Turned, Work, forgo, gather, quiet};
use line_store::LineStore;
use rdb_types::{Copied, Session};
use rdo_ast::syntax::Item;
use reserved_locks::Reserves;
use session_jobs::{Found, Job, Outcome};

/// Takes what a job came to: a record is kept till it is said, what the job lacked is wanted in turn, and want of memory is answered.
/// Where it was left unworked, or calls a line bad, its job is due again, and the session has to stop.
pub fn take_found<S: Reserves, L: LineStore>(
    common: &mut Common<L>,
    s: Session,
    terms: Terms,
    item: Item,
    found: Found,
) -> Turned
    requires member { IsMember s.number }
    requires seat { IsWriting ((L.sight common.old.store).stand s.number) }
    requires found { IsFound S.stands common.old.word terms.standing (uttered_of item) (knows terms.known) found }
    ensures comes { ComesIn S.stands s.number (scene common.old.word (L.sight common.old.store) common.old.tree) (at_stage terms (Working item Out))
        (scene common.new.word (L.sight common.new.store) common.new.tree) result.phase result.happened }
    ensures unworked { OnUnworked result.happened (found ≡ Found.Unworked) }
    ensures bad { NamesBad found result.happened }
{
    match found {
        Found::Done(worked) => keep::<S, L>(common, s, terms, item, worked),
        Found::Missing { next, later } => quiet(gather::<S>(terms, item, next, later)),
        Found::Bad(key) => Turned {
            phase: terms.at(Stage::Working(item, Work::Due)),
            happened: Happening::Unsound(key),
        },
        Found::Unworked => Turned {
            phase: terms.at(Stage::Working(item, Work::Due)),
            happened: Happening::Unworked,
        },
        Found::NoMemory => forgo::<S, L>(common, s, terms, item),
    }
}

/// Works the job of a statement at once, and takes what it came to. Where it is left unworked, that has a cause.
pub fn compute<S: Reserves, L: LineStore>(
    common: &mut Common<L>,
    s: Session,
    terms: Terms,
    item: Item,
) -> Turned
    requires member { IsMember s.number }
    requires seat { IsWriting ((L.sight common.old.store).stand s.number) }
    ensures comes { ComesIn S.stands s.number (scene common.old.word (L.sight common.old.store) common.old.tree) (at_stage terms (Working item Out))
        (scene common.new.word (L.sight common.new.store) common.new.tree) result.phase result.happened }
    ensures cause { OnUnworked result.happened (S.leaves common.old.word terms.standing (uttered_of item) (knows terms.known)) }
{
    let Ok(word) = common.word.copied(common.alloc) else {
        return forgo::<S, L>(common, s, terms, item);
    };
    let job = Job {
        alloc: common.alloc,
        word,
        standing: terms.standing,
        item,
        known: terms.known,
    };
    let (job, _, found) = Outcome::<S>::of(job, S::nothing()).into_parts();
    let back = Terms {
        standing: job.standing,
        known: job.known,
        spoken: terms.spoken,
        waits: terms.waits,
    };
    take_found::<S, L>(common, s, back, job.item, found)
}
