//! The lock that a stage of a statement wants.
ghost use Rattle.std.specs.Prelude.{◌≡◌, ◌⊎◌, true, false, Some};
ghost use Rattle.rdo_ast.specs.Views.{uttered_of};
ghost use Rattle.rdb_account.specs.Legal.{ends_by};
ghost use Rattle.session_limits.specs.line_steps.Images.{journal_node};
ghost use Rattle.lock_needs.specs.Needs.{is_plain};
ghost use Rattle.lock_needs.specs.Nodes.{is_on};
ghost use Rattle.lock_tree_laws.specs.Forest.{State, opened_of};
ghost use Rattle.lock_tree_laws.specs.Wanted.{IsOf};
ghost use Rattle.line_store.specs.Seats.{IsMember, IsWriting};
ghost use Rattle.session_limits.specs.session_states.Locks.{lock_of};
ghost use Rattle.session_limits.specs.session_states.States.{item_of};
ghost use Rattle.session_limits.specs.session_states.declared.stage.Stage.{Stage as StageValue};
ghost use Rattle.lock_needs.specs.declared.need.Need.{Need as NeedValue};
ghost use Rattle.lock_tree_laws.specs.declared.answer.Want.{Want as WantValue};
ghost use Rattle.stage_steps.specs.Asking.{IsCalled, IsOfStatement, IsReplyTo};
ghost use Rattle.stage_steps.specs.Scenes.{ComesIn, scene};
ghost use Rattle.stage_steps.specs.Turns.{at_stage};

use crate::calling::{Called, call};
use crate::common::Common;
use crate::happening::{Asking, Happening, Turned};
use crate::items::refused;
use crate::terms::Terms;
use crate::working::forgo;
use line_store::LineStore;
use lock_needs::Need;
use lock_tree::Cycle;
use lock_tree_laws::Want;
use rdb_types::{Items, Session};
use rdo_ast::reply::Reply;
use rdo_ast::syntax::Item;
use session_jobs::Statements;
use session_limits::{Phase, Stage, behind_got};
use std::alloc::Global;

// The statement of a stage.
fn item_in(stage: Stage) -> Item
    requires { IsOfStatement stage }
    ensures is { item_of stage ≡ Some (uttered_of result) }
    ensures stays { ends_by (uttered_of result) ≡ false }
{
    match stage {
        Stage::Working(item, _) => item,
        Stage::Gathering(item, _, _, _) => item,
        Stage::Reserving(item, _, _, _) => item,
        Stage::Saying(item, _, _) => item,
        Stage::Between | Stage::Ending(_) => unreachable!(),
    }
}

// What a statement is answered whose want would close a cycle.
fn cyclic(alloc: Global, cycle: &Cycle) -> Reply
    ensures { (result ≡ Reply.Deadlock cycle.now) ⊎ (result ≡ Reply.NoMemory) }
{
    match Items::from_slice(alloc, cycle.as_slice()) {
        Ok(owners) => Reply::Deadlock(owners),
        Err(_) => Reply::NoMemory,
    }
}

// Refuses a statement whose lock was refused. The refusal of a START_TRANSACTION leaves no transaction.
fn refuse<S: Statements, L: LineStore>(
    common: &mut Common<L>,
    s: Session,
    terms: Terms,
    item: Item,
    asking: Asking,
    reply: Reply,
) -> Turned
    requires member { IsMember s.number }
    requires seat { IsWriting ((L.sight common.old.store).stand s.number) }
    ensures { (locks : State) (stage : StageValue) (n : NeedValue) (answer : WantValue) → lock_of stage ≡ Some n → item_of stage ≡ Some (uttered_of item) →
        IsCalled s.number n terms.waits locks common.old.tree (record { answer = answer; asking = asking }) → IsReplyTo (uttered_of item) answer reply →
        ComesIn S.stands s.number (scene common.old.word (L.sight common.old.store) locks) (at_stage terms stage)
        (scene common.new.word (L.sight common.new.store) common.new.tree) result.phase result.happened }
{
    let answer = refused(common.alloc, item, reply);
    if terms.spoken {
        return Turned {
            phase: terms.at(Stage::Between),
            happened: Happening::Refused(asking, answer),
        };
    }
    common.store.roll_back(s);
    common.tree.release_all(s.number);
    Turned {
        phase: Phase::Closing,
        happened: Happening::RefusedStart(asking, answer),
    }
}

/// Asks for the lock that the stage of a statement wants, which isn't the journal.
pub fn want<S: Statements, L: LineStore>(
    common: &mut Common<L>,
    s: Session,
    terms: Terms,
    stage: Stage,
    need: Need,
) -> Turned
    requires member { IsMember s.number }
    requires seat { IsWriting ((L.sight common.old.store).stand s.number) }
    requires statement { IsOfStatement stage }
    requires wants { lock_of stage ≡ Some need }
    requires plain { is_plain need ≡ true }
    requires beside { is_on journal_node need.node ≡ false }
    requires same { IsOf need (opened_of common.old.tree s.number) }
    ensures { ComesIn S.stands s.number (scene common.old.word (L.sight common.old.store) common.old.tree) (at_stage terms stage)
        (scene common.new.word (L.sight common.new.store) common.new.tree) result.phase result.happened }
{
    let Ok(called) = call(&mut common.tree, s, need, terms.waits) else {
        return forgo::<S, L>(common, s, terms, item_in(stage));
    };
    let Called { answer, asking } = called;
    match answer {
        Want::Got => Turned {
            phase: terms.at(behind_got(stage)),
            happened: Happening::Got(asking),
        },
        Want::NoticeTo(other, node, mode) => Turned {
            phase: terms.at(stage),
            happened: Happening::Noticed(other, node, mode, asking),
        },
        Want::Asleep(other) => Turned {
            phase: terms.at(stage),
            happened: Happening::Asleep(other, asking),
        },
        Want::Conflict(other) => {
            refuse::<S, L>(
                common,
                s,
                terms,
                item_in(stage),
                asking,
                Reply::LockConflict(other),
            )
        }
        Want::Deadlock(cycle) => {
            let reply = cyclic(common.alloc, &cycle);
            refuse::<S, L>(common, s, terms, item_in(stage), asking, reply)
        }
    }
}
