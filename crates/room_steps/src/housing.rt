//! A line is named for a room that a job lacks, and is locked; or its area is full.
ghost use Rattle.std.specs.Prelude.{◌≡◌, false, None};
ghost use Rattle.rdb_account.specs.Legal.{ends_by};
ghost use Rattle.rdo_ast.specs.Views.{uttered_of};
ghost use Rattle.lock_needs.specs.declared.need.Need.{Need as NeedValue};
ghost use Rattle.lock_tree_laws.specs.Forest.{opened_of};
ghost use Rattle.line_store.specs.Rooms.{IsFull};
ghost use Rattle.line_store.specs.Seats.{IsMember, IsWriting};
ghost use Rattle.line_store.specs.Shelves.{Shelf};
ghost use Rattle.gathering_steps.specs.stage_steps.Scenes.{ComesIn, scene};
ghost use Rattle.gathering_steps.specs.stage_steps.Turns.{at_stage};
ghost use Rattle.gathering_steps.specs.Rounds.{gathers_at};

use crate::naming::{Named, line_node, name_line};
use gathering_steps::{
    Common, Gather, Happening, Round, Stage, Terms, Turned, Work, forgo, refuse_at_limit, want,
};
use given_rooms::Rooms;
use line_store::LineStore;
use line_view::{Need, Room};
use lock_needs::Need as LockNeed;
use rdb_types::{Dbkey, Session};
use rdo_ast::reply::Reply;
use rdo_ast::syntax::Item;
use reached_changes::Reaches;
use vms_queues::Mode;

// It can't go on: the room is none of its area's, or nothing says that a full area may stand in place of its reply.
fn unworked(terms: Terms, item: Item, room: Room) -> Turned
    ensures phase { result.phase ≡ at_stage terms (Stage.Working item (Work.Lacking (Need.Room room))) }
    ensures happened { result.happened ≡ Happening.Unworked }
{
    Turned {
        phase: terms.at(Stage::Working(item, Work::Lacking(Need::Room(room)))),
        happened: Happening::Unworked,
    }
}

// Refuses a statement that lacks a room of a full area, where nothing refuses it before its work.
fn refuse_full<S: Reaches, L: LineStore>(
    common: &mut Common<L>,
    s: Session,
    terms: Terms,
    item: Item,
    room: Room,
    limit: u32,
) -> Turned
    requires member { IsMember s.number }
    requires seat { IsWriting ((L.sight common.old.store).stand s.number) }
    requires full { (h : Shelf) → (L.sight common.old.store).shows h → IsFull h s.number room.area limit }
    ensures { ComesIn S.stands s.number (scene common.old.word (L.sight common.old.store) common.old.tree) (at_stage terms (Stage.Working item (Work.Lacking (Need.Room room))))
        (scene common.new.word (L.sight common.new.store) common.new.tree) result.phase result.happened }
{
    if !terms.spoken {
        return unworked(terms, item, room);
    }
    match S::is_reached(common.alloc, &terms.known, &terms.standing, &item) {
        Ok(true) => refuse_at_limit(common.alloc, terms, item, Reply::AreaFull(limit)),
        Ok(false) => unworked(terms, item, room),
        Err(_) => forgo::<S, L>(common, s, terms, item),
    }
}

// Asks for EX on the line that was named for a room.
fn want_line<S: Reaches, L: LineStore>(
    common: &mut Common<L>,
    s: Session,
    terms: Terms,
    round: Round,
    room: Room,
    key: Dbkey,
) -> Turned
    requires member { IsMember s.number }
    requires seat { IsWriting ((L.sight common.old.store).stand s.number) }
    requires statement { ends_by (uttered_of round.item) ≡ false }
    requires closed { opened_of common.old.tree s.number ≡ None }
    requires area { key.area ≡ room.area }
    ensures { ComesIn S.stands s.number (scene common.old.word (L.sight common.old.store) common.old.tree) (gathers_at terms round (Gather.Locking (Need.Room room)))
        (scene common.new.word (L.sight common.new.store) common.new.tree) result.phase result.happened }
{
    let lock = LockNeed {
        node: line_node(key),
        mode: Mode::EX,
    };
    let stage = round.at(Gather::Housing(room, key));
    want::<S, L>(common, s, terms, stage, lock)
}

/// Names a line for a room that a job lacked, and asks for EX on it in the same step, so that no other session comes between. Where the
/// area is full the statement is refused.
pub fn house<S: Reaches, L: LineStore>(
    common: &mut Common<L>,
    s: Session,
    terms: Terms,
    rooms: &Rooms,
    round: Round,
    room: Room,
) -> Turned
    requires member { IsMember s.number }
    requires seat { IsWriting ((L.sight common.old.store).stand s.number) }
    requires statement { ends_by (uttered_of round.item) ≡ false }
    requires closed { opened_of common.old.tree s.number ≡ None }
    ensures { ComesIn S.stands s.number (scene common.old.word (L.sight common.old.store) common.old.tree) (gathers_at terms round (Gather.Locking (Need.Room room)))
        (scene common.new.word (L.sight common.new.store) common.new.tree) result.phase result.happened }
{
    match name_line(&common.store, &common.tree, s, rooms, room) {
        Named::Line(key) => want_line::<S, L>(common, s, terms, round, room, key),
        Named::Awaited(key) => want_line::<S, L>(common, s, terms, round, room, key),
        Named::Full(limit) => refuse_full::<S, L>(common, s, terms, round.item, room, limit),
        Named::Unfit => unworked(terms, round.item, room),
    }
}
