//! A statement of a read-write transaction: it is taken up, and its job is worked.
ghost use Rattle.std.specs.Prelude.{◌≡◌, ℕ, List, [], true, false, Some};
ghost use Rattle.rdo_ast.specs.Views.{uttered_of};
ghost use Rattle.line_store.specs.Seats.{beginning, IsMember, IsWriting};
ghost use Rattle.session_limits.specs.session_states.declared.stage.Stage.{Stage as StageValue};
ghost use Rattle.lock_tree_laws.specs.Forest.{State};
ghost use Rattle.lock_tree_laws.specs.Room.{IsAsBefore};
ghost use Rattle.session_limits.specs.session_states.declared.stage.Phase.{Phase as PhaseValue};
ghost use Rattle.rdo_ast.specs.declared.syntax.Item.{Item as ItemValue};
ghost use Rattle.session_limits.specs.session_states.States.{item_of, is_at_rest, session};
ghost use Rattle.session_measure.specs.Weights.{Beside, items_in};
ghost use Rattle.session_measure.specs.Nearer.{has_out};
ghost use Rattle.stage_steps.specs.Leaving.{OnUnworked};
ghost use Rattle.stage_steps.specs.Nearer.{Nearer};
ghost use Rattle.stage_steps.specs.Scenes.{ComesIn, PassesOn, TakesUpIn, scene};
ghost use Rattle.stage_steps.specs.Turns.{at_stage};

use crate::common::Common;
use crate::happening::{Happening, Turned, failed, quiet};
use crate::items::{End, end_of, refused};
use crate::storing::work_on;
use crate::terms::Terms;
use line_store::{LineStore, Progress};
use rdb_types::Session;
use rdo_ast::reply::Reply;
use rdo_ast::syntax::Item;
use session_jobs::Statements;
use session_limits::{End as EndStage, Phase, Stage, Work};

/// Takes up the next item. A ROLLBACK has the store undo.
pub fn take_up<S: Statements, L: LineStore>(
    store: &mut L,
    s: Session,
    terms: Terms,
    item: Item,
) -> Phase
    requires member { IsMember s.number }
    requires seat { IsWriting ((L.sight store.old).stand s.number) }
    ensures { (word : List ℕ) (locks : State) → TakesUpIn S.stands s.number item (scene word (L.sight store.old) locks) (at_stage terms Stage.Between) (scene word (L.sight store.new) locks) result Happening.Quiet }
{
    match end_of(&item) {
        End::Nothing => terms.at(Stage::Working(item, Work::Due)),
        End::Commit => terms.at(Stage::Ending(EndStage::Preparing)),
        End::Rollback => {
            store.roll_back(s);
            terms.at(Stage::Ending(EndStage::RollingBack))
        }
    }
}

/// The store opens the transaction that a statement begins.
pub fn open<S: Statements, L: LineStore>(
    store: &mut L,
    s: Session,
    terms: Terms,
    item: Item,
) -> Turned
    requires member { IsMember s.number }
    requires opening { (L.sight store.old).stand s.number ≡ beginning }
    ensures { (word : List ℕ) (locks : State) → ComesIn S.stands s.number (scene word (L.sight store.old) locks) (at_stage terms (Stage.Working item Work.Opening)) (scene word (L.sight store.new) locks) result.phase result.happened }
{
    match work_on(store, s) {
        Ok(Progress::Done) => quiet(terms.at(Stage::Working(item, Work::Due))),
        Ok(Progress::More) => quiet(terms.at(Stage::Working(item, Work::Opening))),
        Err(fault) => failed(fault, terms.at(Stage::Working(item, Work::Opening))),
    }
}

/// The job of a statement is handed out.
pub fn hand_out<S: Statements>(terms: Terms, item: Item) -> Phase
    ensures passes { PassesOn S.stands (at_stage terms (Stage.Working item Work.Due)) result }
    ensures out { result ≡ at_stage terms (Stage.Working item Work.Out) }
{
    terms.at(Stage::Working(item, Work::Out))
}

/// Refuses the statement of a stage at which the store rests, since no memory was found: its want ends. The refusal of a
/// START_TRANSACTION leaves no transaction. (The call that found none may have taken room before.)
pub fn forgo<S: Statements, L: LineStore>(
    common: &mut Common<L>,
    s: Session,
    terms: Terms,
    item: Item,
) -> Turned
    requires member { IsMember s.number }
    requires seat { IsWriting ((L.sight common.old.store).stand s.number) }
    ensures forgoes { (locks : State) (stage : StageValue) → IsAsBefore locks common.old.tree → is_at_rest stage ≡ true → item_of stage ≡ Some (uttered_of item) →
        ComesIn S.stands s.number (scene common.old.word (L.sight common.old.store) locks) (at_stage terms stage)
        (scene common.new.word (L.sight common.new.store) common.new.tree) result.phase result.happened }
    ensures worked { OnUnworked result.happened ⊥ }
    ensures rests { has_out result.phase ≡ false }
    ensures nearer { (c d : Beside) (x : PhaseValue) (left : List ItemValue) (total : ℕ) → items_in x ≡ 1 → Nearer s.number result.happened c d (session left total x) (session left total result.phase) }
{
    let answer = refused(common.alloc, item, Reply::NoMemory);
    if terms.spoken {
        common.tree.give_up(s.number);
        return Turned {
            phase: terms.at(Stage::Between),
            happened: Happening::Answered(answer),
        };
    }
    common.store.roll_back(s);
    common.tree.release_all(s.number);
    Turned {
        phase: Phase::Closing,
        happened: Happening::Unstarted(answer),
    }
}
