// What a stage comes to: the next item is taken up, a job has come back, a lock is got, a record is said.
ghost use Rattle.std.specs.Prelude.{◌≡◌};
ghost use Rattle.session_states.specs.Turns.{taken, returned, got_work, got_gather, got_laying, got_end, got, IsPlace, IsWithin, said_writer};

use crate::stage::{End, Gather, Laying, Stage, Work, Writer};
use line_steps::{Found, TxRecord};
use line_view::{Known, Writes};
use rdb_types::Keys;
use rdo_ast::reply::Reply;
use rdo_ast::syntax::{Item, Statement};

/// The stage of an item that is taken up: a COMMIT is prepared, a ROLLBACK has the store undo, and all else is worked.
pub fn take_up(item: Item) -> Stage
    ensures { result ≡ taken item }
{
    match &item {
        Item::Statement(Statement::Commit) => Stage::Ending(End::Preparing),
        Item::Statement(Statement::Rollback) => Stage::Ending(End::RollingBack),
        _ => Stage::Working(item, Work::Due),
    }
}

/// The stage of a statement whose job came back. The item is given back where it wasn't worked, or no memory was found for it. A job
/// that calls a line bad comes back from no session's work; it is worked again.
pub fn come_back(item: Item, found: Found) -> Result<Stage, Item>
    ensures { result ≡ returned item found }
{
    match found {
        Found::Done(worked) => Ok(Stage::Saying(item, worked, Laying::Claiming(0))),
        Found::Missing { next, later } => {
            Ok(Stage::Gathering(item, Gather::Locking(next), later, 0))
        }
        Found::Bad(_) => Ok(Stage::Working(item, Work::Due)),
        Found::Unworked | Found::NoMemory => Err(item),
    }
}

fn work_behind_got(work: Work) -> Work
    ensures { result ≡ got_work work }
{
    match work {
        Work::Lacking(need) => Work::Fetching(need),
        Work::Housing(room, key) => Work::Lodging(room, key),
        work => work,
    }
}

fn gather_behind_got(gather: Gather) -> Gather
    ensures { result ≡ got_gather gather }
{
    match gather {
        Gather::Locking(need) => Gather::Reading(need),
        Gather::Housing(room, key) => Gather::Lodging(room, key),
        gather => gather,
    }
}

fn end_behind_got(end: End) -> End
    ensures { result ≡ got_end end }
{
    match end {
        End::Journal => End::Ready,
        end => end,
    }
}

fn laying_behind_got(laying: Laying, writes: &Writes) -> Laying
    requires within { IsPlace writes.now laying }
    ensures { result ≡ got_laying laying }
{
    match laying {
        Laying::Claiming(place) => {
            // (so the place behind it is a number)
            let _count = writes.len();
            Laying::Claiming(place + 1)
        }
        laying => laying,
    }
}

/// The stage behind the lock that it wanted.
pub fn behind_got(stage: Stage) -> Stage
    requires within { IsWithin stage }
    ensures { result ≡ got stage }
{
    match stage {
        Stage::Between => Stage::Between,
        Stage::Working(item, work) => Stage::Working(item, work_behind_got(work)),
        Stage::Gathering(item, gather, later, place) => {
            Stage::Gathering(item, gather_behind_got(gather), later, place)
        }
        Stage::Reserving(item, worked, locks, place) => {
            // (so the place behind it is a number)
            let _count = locks.len();
            Stage::Reserving(item, worked, locks, place + 1)
        }
        Stage::Saying(item, worked, laying) => {
            let next = laying_behind_got(laying, &worked.writes);
            Stage::Saying(item, worked, next)
        }
        Stage::Ending(end) => Stage::Ending(end_behind_got(end)),
    }
}

/// A transaction behind a statement that it said, with what was said.
#[derive(Drop)]
pub struct Spoken {
    pub writer: Writer,
    pub item: Item,
    pub choices: Keys,
    pub reply: Reply,
}

/// Says what a statement came to.
pub fn speak(item: Item, worked: TxRecord, known: Known, waits: bool) -> Spoken
    ensures writer { result.writer ≡ said_writer worked known waits }
    ensures item { result.item ≡ item }
    ensures choices { result.choices ≡ worked.choices }
    ensures reply { result.reply ≡ worked.reply }
{
    Spoken {
        writer: Writer {
            standing: worked.standing,
            known,
            spoken: true,
            waits,
            stage: Stage::Between,
        },
        item,
        choices: worked.choices,
        reply: worked.reply,
    }
}
