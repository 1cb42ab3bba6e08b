//! A COMMIT that is prepared wants the journal.
ghost use Rattle.std.specs.Prelude.{◌≡◌, false, [], None};
ghost use Rattle.rdb_account.specs.Events.{need};
ghost use Rattle.journal_waits.specs.Holders.{OthersKeepTo};
ghost use Rattle.session_limits.specs.line_steps.Images.{journal_node};
ghost use Rattle.line_store.specs.Seats.{IsMember, IsPrepared, IsWriting, prepared};
ghost use Rattle.line_store.specs.Shelves.{Shelf};
ghost use Rattle.line_store.specs.Sights.{Does, Prepares};
ghost use Rattle.lock_needs.specs.Waits.{converts_at};
ghost use Rattle.lock_tree_laws.specs.Forest.{opened_of};
ghost use Rattle.lock_tree_laws.specs.Wanted.{IsOf, needs_of};
ghost use Rattle.stage_steps.specs.Scenes.{ComesIn, scene};
ghost use Rattle.stage_steps.specs.Turns.{at_stage};

use crate::calling::{Called, call};
use crate::common::Common;
use crate::happening::{Happening, Turned};
use crate::items::refused;
use crate::terms::Terms;
use line_store::LineStore;
use lock_needs::Need;
use lock_tree_laws::Want;
use rdb_types::{Level, Node, Session};
use rdo_ast::reply::Reply;
use rdo_ast::syntax::{Item, Statement};
use session_jobs::Statements;
use session_limits::{End, Stage};
use vms_queues::Mode;

/// EX on the after-image journal.
const JOURNAL: Need = Need {
    node: Node {
        level: Level::Journal,
        area: 0,
        at: 0,
        line: 0,
    },
    mode: Mode::EX,
};

/// A COMMIT asks for the journal, for which it waits in any transaction; `behind` says what that is right behind its preparing, in one
/// step. Nobody waits for who waits for the journal, and so its want is got in the end. Where no memory is found for it, what was taken
/// for the COMMIT is given back: it is refused, and its transaction goes on.
pub fn want_journal<S: Statements, L: LineStore>(
    common: &mut Common<L>,
    s: Session,
    terms: Terms,
) -> Turned
    requires member { IsMember s.number }
    requires prepared { IsPrepared ((L.sight common.old.store).stand s.number) }
    requires same { IsOf (need journal_node Mode.EX) (opened_of common.old.tree s.number) }
    requires without { converts_at (needs_of common.old.tree s.number) journal_node ≡ false }
    requires rest { OthersKeepTo common.old.tree s.number journal_node }
    ensures comes { ComesIn S.stands s.number (scene common.old.word (L.sight common.old.store) common.old.tree) (at_stage terms (Stage.Ending End.Journal))
        (scene common.new.word (L.sight common.new.store) common.new.tree) result.phase result.happened }
    ensures behind { (before : L) → opened_of common.old.tree s.number ≡ None → ((h : Shelf) → (L.sight before).shows h → IsWriting (h.seat s.number)) → Does s.number (prepared []) (Prepares s.number) (L.sight before) (L.sight common.old.store) →
        ComesIn S.stands s.number (scene common.old.word (L.sight before) common.old.tree) (at_stage terms (Stage.Ending End.Preparing))
        (scene common.new.word (L.sight common.new.store) common.new.tree) result.phase result.happened }
{
    let Ok(called) = call(&mut common.tree, s, JOURNAL, true) else {
        common.store.give_back(s);
        common.tree.give_up(s.number);
        let commit = Item::Statement(Statement::Commit);
        return Turned {
            phase: terms.at(Stage::Between),
            happened: Happening::Answered(refused(common.alloc, commit, Reply::NoMemory)),
        };
    };
    let Called { answer, asking } = called;
    match answer {
        Want::Got => Turned {
            phase: terms.at(Stage::Ending(End::Ready)),
            happened: Happening::Got(asking),
        },
        Want::Asleep(other) => Turned {
            phase: terms.at(Stage::Ending(End::Journal)),
            happened: Happening::Asleep(other, asking),
        },
        Want::NoticeTo(_, _, _) => unreachable!(),
        Want::Conflict(_) => unreachable!(),
        Want::Deadlock(_) => unreachable!(),
    }
}
