//! The line that was named for a room is read, and its page is taken; behind the last of a round the rooms are made known.
ghost use Rattle.std.specs.Prelude.{◌≡◌, ℕ, true};
ghost use Rattle.rdb_page.specs.Page.{IsOwner, IsClass};
ghost use Rattle.rdb_types.specs.declared.keys.Dbkey.{Dbkey as Key};
ghost use Rattle.line_view.specs.declared.need.Room.{Room as RoomValue};
ghost use Rattle.gathering_steps.specs.session_states.declared.stage.Gather.TheVariants.{Lodging};
ghost use Rattle.line_store.specs.Seats.{IsMember, IsWriting};
ghost use Rattle.gathering_steps.specs.stage_steps.Scenes.{ComesIn, scene};
ghost use Rattle.gathering_steps.specs.Rounds.{gathers_at};
ghost use Rattle.room_steps.specs.Lodgings.{NearerFrom};

use crate::given::{Given, is_of_pages};
use gathering_steps::{Common, Round, Stage, Terms, Turned, Work, failed, forgo, quiet};
use given_rooms::Rooms;
use line_store::{LineStore, Progress, ReadStop};
use line_view::{Need, Seen, View};
use rdb_types::Session;
use session_jobs::Statements;
use stepped_jobs::fetch;

// The rooms that were given are made known, and the job is due again: what is left of its round is let go.
fn let_go<S: Statements, L: LineStore>(
    common: &mut Common<L>,
    s: Session,
    terms: Terms,
    rooms: &Rooms,
    round: Round,
) -> Turned
    requires member { IsMember s.number }
    requires seat { IsWriting ((L.sight common.old.store).stand s.number) }
    ensures comes { (room : RoomValue) (key : Key) → ComesIn S.stands s.number (scene common.old.word (L.sight common.old.store) common.old.tree) (gathers_at terms round (Lodging room key))
        (scene common.new.word (L.sight common.new.store) common.new.tree) result.phase result.happened }
    ensures nearer { NearerFrom s.number round result.phase result.happened }
{
    let mut terms = terms;
    match rooms.learn(&mut terms.known) {
        Ok(()) => quiet(terms.at(Stage::Working(round.item, Work::Due))),
        Err(_) => forgo::<S, L>(common, s, terms, round.item),
    }
}

// Takes the page of a room behind which another room is lacked, which is wanted next.
fn take_on<S: Statements, L: LineStore>(
    common: &mut Common<L>,
    s: Session,
    terms: Terms,
    rooms: &mut Rooms,
    round: Round,
    given: Given,
) -> Turned
    requires member { IsMember s.number }
    requires seat { IsWriting ((L.sight common.old.store).stand s.number) }
    requires area { (file : ℕ) × IsOwner file given.key.area }
    requires class { IsClass given.room.class }
    ensures comes { ComesIn S.stands s.number (scene common.old.word (L.sight common.old.store) common.old.tree) (gathers_at terms round (Lodging given.room given.key))
        (scene common.new.word (L.sight common.new.store) common.new.tree) result.phase result.happened }
    ensures nearer { NearerFrom s.number round result.phase result.happened }
{
    let Some(next) = round.next() else {
        return let_go::<S, L>(common, s, terms, rooms, round);
    };
    match common.store.take_room(s, given.key, given.room.class) {
        Ok(true) => quiet(terms.at(round.on(next))),
        Ok(false) => {
            rooms.renew(common.alloc);
            let_go::<S, L>(common, s, terms, rooms, round)
        }
        Err(_) => forgo::<S, L>(common, s, terms, round.item),
    }
}

// Takes the page of the last room of a round. The rooms that were given are made known, and the job is due again.
fn take_last<S: Statements, L: LineStore>(
    common: &mut Common<L>,
    s: Session,
    terms: Terms,
    rooms: &mut Rooms,
    round: Round,
    given: Given,
) -> Turned
    requires member { IsMember s.number }
    requires seat { IsWriting ((L.sight common.old.store).stand s.number) }
    requires area { (file : ℕ) × IsOwner file given.key.area }
    requires class { IsClass given.room.class }
    ensures comes { ComesIn S.stands s.number (scene common.old.word (L.sight common.old.store) common.old.tree) (gathers_at terms round (Lodging given.room given.key))
        (scene common.new.word (L.sight common.new.store) common.new.tree) result.phase result.happened }
    ensures nearer { NearerFrom s.number round result.phase result.happened }
{
    let mut terms = terms;
    if rooms.learn(&mut terms.known).is_err() {
        return forgo::<S, L>(common, s, terms, round.item);
    }
    match common.store.take_room(s, given.key, given.room.class) {
        Ok(true) => quiet(terms.at(Stage::Working(round.item, Work::Due))),
        Ok(false) => {
            rooms.renew(common.alloc);
            terms.known.forget_rooms();
            quiet(terms.at(Stage::Working(round.item, Work::Due)))
        }
        Err(_) => forgo::<S, L>(common, s, terms, round.item),
    }
}

// Takes a line that was read, where it is known to be absent; where it isn't, it is no room.
fn settle<S: Statements, L: LineStore>(
    common: &mut Common<L>,
    s: Session,
    terms: Terms,
    rooms: &mut Rooms,
    round: Round,
    given: Given,
) -> Turned
    requires member { IsMember s.number }
    requires seat { IsWriting ((L.sight common.old.store).stand s.number) }
    ensures comes { ComesIn S.stands s.number (scene common.old.word (L.sight common.old.store) common.old.tree) (gathers_at terms round (Lodging given.room given.key))
        (scene common.new.word (L.sight common.new.store) common.new.tree) result.phase result.happened }
    ensures nearer { NearerFrom s.number round result.phase result.happened }
{
    let is_absent = matches!(terms.known.line(given.key), Seen::Absent);
    if !is_absent || !is_of_pages(given.key.area, given.room.class) {
        return let_go::<S, L>(common, s, terms, rooms, round);
    }
    if rooms.give(given.room, given.key).is_err() {
        return forgo::<S, L>(common, s, terms, round.item);
    }
    match round.next() {
        Some(Need::Room(_)) => take_on::<S, L>(common, s, terms, rooms, round, given),
        _ => take_last::<S, L>(common, s, terms, rooms, round, given),
    }
}

/// Reads the line that was named for a room, which is locked, and takes its page. Then the next room of its round is wanted; behind the
/// last one the rooms are known, and the job is due again. So it is too where the line turns out to be no room.
pub fn lodge<S: Statements, L: LineStore>(
    common: &mut Common<L>,
    s: Session,
    terms: Terms,
    rooms: &mut Rooms,
    round: Round,
    given: Given,
) -> Turned
    requires member { IsMember s.number }
    requires seat { IsWriting ((L.sight common.old.store).stand s.number) }
    ensures { ComesIn S.stands s.number (scene common.old.word (L.sight common.old.store) common.old.tree) (gathers_at terms round (Lodging given.room given.key))
        (scene common.new.word (L.sight common.new.store) common.new.tree) result.phase result.happened }
{
    let mut terms = terms;
    match fetch(
        &mut common.store,
        s,
        Need::Line(given.key),
        &mut terms.known,
    ) {
        Ok(Progress::Done) => settle::<S, L>(common, s, terms, rooms, round, given),
        Ok(Progress::More) => quiet(terms.at(round.at(given.lodging()))),
        Err(ReadStop::NoMemory) => forgo::<S, L>(common, s, terms, round.item),
        Err(ReadStop::Fault(fault)) => failed(fault, terms.at(round.at(given.lodging()))),
    }
}
