//! A statement of a read-write transaction that is worked.
ghost use Rattle.std.specs.Prelude.{◌≡◌, None};
ghost use Rattle.line_store.specs.Seats.{IsMember};
ghost use Rattle.rdb_types.specs.declared.keys.Dbkey.{Dbkey as Key};
ghost use Rattle.line_view.specs.declared.need.Need.TheVariants.{Room as OfRoom};
ghost use Rattle.line_view.specs.declared.need.Room.{Room as RoomValue};
ghost use Rattle.job_steps.specs.session_states.declared.stage.Work.TheVariants.{Lacking, Lodging};
ghost use Rattle.job_steps.specs.session_states.Locks.{lock_of};
ghost use Rattle.job_steps.specs.session_stands.Seated.{IsSeated};
ghost use Rattle.job_steps.specs.session_measure.Nearer.{AreRounds};
ghost use Rattle.job_steps.specs.stage_steps.Asking.{IsOfStatement};
ghost use Rattle.job_steps.specs.stage_steps.Scenes.{ComesIn, PassesOn, scene};
ghost use Rattle.job_steps.specs.stage_steps.Turns.{at_stage};
ghost use Rattle.line_arms.specs.Going.{MayBeAsked};

use crate::Allotment;
use job_steps::{
    Common, Phase, Stage, Terms, Turned, Work, compute, fetch_locked, forgo, hand_out, lock_of,
    open, quiet, want,
};
use line_store::LineStore;
use line_view::Need;
use rdb_types::Session;
use rdo_ast::syntax::Item;
use reserved_locks::Reserves;
use session_jobs::Statements;

/// One step of a statement's work.
pub(crate) fn go_on_working<S: Reserves, L: LineStore>(
    common: &mut Common<L>,
    s: Session,
    terms: Terms,
    allotment: &mut Allotment,
    item: Item,
    work: Work,
) -> Turned
    requires member { IsMember s.number }
    requires seated { IsSeated (L.sight common.old.store).stand common.old.tree s.number (at_stage terms (Stage.Working item work)) }
    ensures comes { ComesIn S.stands s.number (scene common.old.word (L.sight common.old.store) common.old.tree) (at_stage terms (Stage.Working item work))
        (scene common.new.word (L.sight common.new.store) common.new.tree) result.phase result.happened }
    ensures rounds { AreRounds (at_stage terms (Stage.Working item work)) result.phase allotment.old.rounds allotment.new.rounds }
{
    match work {
        Work::Opening => open::<S, L>(&mut common.store, s, terms, item),
        Work::Due => hand_out_once::<S, L>(common, s, terms, allotment, item),
        Work::Out => compute::<S, L>(common, s, terms, item),
        Work::Fetching(need) => fetch_locked::<S, L>(common, s, terms, item, need),
        Work::Lacking(Need::Room(_)) => quiet(hand_in::<S>(terms, item)),
        Work::Lodging(..) => quiet(hand_in::<S>(terms, item)),
        Work::Lacking(_) | Work::Housing(..) => {
            want_lock::<S, L>(common, s, terms, Stage::Working(item, work))
        }
    }
}

// The job of a statement is handed out, and it has one round fewer. Once it has none it is refused for want of memory.
fn hand_out_once<S: Statements, L: LineStore>(
    common: &mut Common<L>,
    s: Session,
    terms: Terms,
    allotment: &mut Allotment,
    item: Item,
) -> Turned
    requires member { IsMember s.number }
    requires seated { IsSeated (L.sight common.old.store).stand common.old.tree s.number (at_stage terms (Stage.Working item Work.Due)) }
    ensures comes { ComesIn S.stands s.number (scene common.old.word (L.sight common.old.store) common.old.tree) (at_stage terms (Stage.Working item Work.Due))
        (scene common.new.word (L.sight common.new.store) common.new.tree) result.phase result.happened }
    ensures rounds { AreRounds (at_stage terms (Stage.Working item Work.Due)) result.phase allotment.old.rounds allotment.new.rounds }
{
    if allotment.rounds == 0 {
        return forgo::<S, L>(common, s, terms, item);
    }
    allotment.rounds -= 1;
    quiet(hand_out::<S>(terms, item))
}

/// Asks for the lock that the stage of a statement wants.
pub(crate) fn want_lock<S: Statements, L: LineStore>(
    common: &mut Common<L>,
    s: Session,
    terms: Terms,
    stage: Stage,
) -> Turned
    requires member { IsMember s.number }
    requires seated { IsSeated (L.sight common.old.store).stand common.old.tree s.number (at_stage terms stage) }
    requires statement { IsOfStatement stage }
    requires wants { lock_of stage ≡ None → ⊥ }
    requires asked { MayBeAsked (lock_of stage) }
    ensures { ComesIn S.stands s.number (scene common.old.word (L.sight common.old.store) common.old.tree) (at_stage terms stage)
        (scene common.new.word (L.sight common.new.store) common.new.tree) result.phase result.happened }
{
    let Some(need) = lock_of(&stage) else {
        unreachable!();
    };
    want::<S, L>(common, s, terms, stage, need)
}

// The job of a statement that lacks a room names it anew, in a round of needs.
fn hand_in<S: Statements>(terms: Terms, item: Item) -> Phase
    ensures lacks { (room : RoomValue) → PassesOn S.stands (at_stage terms (Stage.Working item (Lacking (OfRoom room)))) result }
    ensures lodges { (room : RoomValue) (key : Key) → PassesOn S.stands (at_stage terms (Stage.Working item (Lodging room key))) result }
{
    terms.at(Stage::Working(item, Work::Due))
}
