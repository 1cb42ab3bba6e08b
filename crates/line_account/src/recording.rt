//! The events of what happened in a step.
ghost use Rattle.std.specs.Prelude.{◌≡◌, ◌≤◌, ◌<◌, ◌+◌, ◌++◌, ◌∷◌, [], length, map, Ok, OnOk};
ghost use Rattle.std.specs.Vec.{vec_len, vec_capacity};
ghost use Rattle.rdo_ast.specs.Views.{uttered_of};
ghost use Rattle.rdb_account.specs.Events.{event_of, Died, Said};
ghost use Rattle.stage_steps.specs.Happenings.{events_of, said_by, asked_by};
ghost use Rattle.stage_steps.specs.Notices.{demoted_by};
ghost use Rattle.stage_steps.specs.Deaths.{recovery_events};

use lock_tree::Demotion;
use rdb_account::Event;
use rdb_types::{Cause, Items, Moment, NoMemory, Node, Session};
use rdo_ast::reply::Reply;
use rdo_ast::syntax::{Item, Statement};
use stage_steps::{Answer, Asking, Happening, Recovery};
use std::alloc::Global;

/// The most events of one step: a want is asked at four nodes, its statement is refused, and its transaction ends.
pub const MOST_EVENTS: usize = 6;

/// The most events of deaths and recoveries that may still come: each of sixteen sessions dies once at most, and is recovered.
pub const KEPT_EVENTS: usize = 32;

/// Takes room for the events of a step and of a notice that is served in it, beside the room that is kept for deaths and recoveries.
/// Where no memory is found there is as much room as before.
pub fn reserve_step(events: &mut Vec<Event>) -> Result<(), NoMemory>
    ensures same { events.new.items ≡ events.old.items }
    ensures len { vec_len events.new ≡ vec_len events.old }
    ensures capacity { vec_capacity events.old ≤ vec_capacity events.new }
    ensures room { OnOk result (vec_len events.new + (MOST_EVENTS + 1 + KEPT_EVENTS) ≤ vec_capacity events.new) }
{
    events.reserve(MOST_EVENTS + 1 + KEPT_EVENTS)?;
    Ok(())
}

fn said(s: Session, answer: Answer) -> Event
    ensures { event_of result ≡ said_by s.number answer }
{
    Event::Said(s, answer.item, answer.keys, answer.reply)
}

// COMMIT, ROLLBACK and an online backup are done without a line.
fn done(s: Session, alloc: Global, item: Item) -> Event
    ensures { event_of result ≡ Said s.number (uttered_of item) [] (Reply.Done []) }
{
    Event::Said(s, item, Items::new(alloc), Reply::Done(Items::new(alloc)))
}

// A want, asked at these nodes.
fn record_asking(events: &mut Vec<Event>, s: Session, asking: &Asking)
    requires room { vec_len events.old + MOST_EVENTS ≤ vec_capacity events.old }
    ensures events { map event_of events.new.items ≡ map event_of events.old.items ++ asked_by s.number asking.now }
    ensures len { vec_len events.new ≤ vec_len events.old + 4 }
    ensures capacity { vec_capacity events.new ≡ vec_capacity events.old }
{
    let need = asking.need;
    for node in asking.nodes.as_slice() {
        events.push_reserved(Event::Wanted(s, need.node, need.mode, *node));
    }
}

/// Puts the events of what happened behind those before.
pub fn record(events: &mut Vec<Event>, alloc: Global, s: Session, happened: Happening)
    requires room { vec_len events.old + MOST_EVENTS ≤ vec_capacity events.old }
    ensures events { map event_of events.new.items ≡ map event_of events.old.items ++ events_of s.number happened }
    ensures len { vec_len events.new ≤ vec_len events.old + MOST_EVENTS }
    ensures capacity { vec_capacity events.new ≡ vec_capacity events.old }
{
    match happened {
        Happening::Began(kind) => events.push_reserved(Event::Began(s, kind)),
        Happening::Answered(answer) => events.push_reserved(said(s, answer)),
        Happening::Unstarted(answer) => {
            events.push_reserved(said(s, answer));
            events.push_reserved(Event::RolledBack(s));
        }
        Happening::Asleep(_, asking) | Happening::Noticed(_, _, _, asking) => {
            record_asking(events, s, &asking);
        }
        Happening::Got(asking) => {
            record_asking(events, s, &asking);
            events.push_reserved(Event::Got(s, asking.need.node, asking.need.mode));
        }
        Happening::Refused(asking, answer) => {
            record_asking(events, s, &asking);
            events.push_reserved(said(s, answer));
        }
        Happening::RefusedStart(asking, answer) => {
            record_asking(events, s, &asking);
            events.push_reserved(said(s, answer));
            events.push_reserved(Event::RolledBack(s));
        }
        Happening::Committed(moment) => {
            events.push_reserved(Event::Committed(s, moment));
            events.push_reserved(done(s, alloc, Item::Statement(Statement::Commit)));
        }
        Happening::BackedUp(item, moment) => {
            events.push_reserved(Event::Committed(s, moment));
            events.push_reserved(done(s, alloc, item));
        }
        Happening::RolledBack => {
            events.push_reserved(Event::RolledBack(s));
            events.push_reserved(done(s, alloc, Item::Statement(Statement::Rollback)));
        }
        Happening::Left => events.push_reserved(Event::RolledBack(s)),
        Happening::Quiet
        | Happening::Failed(_)
        | Happening::Unlaid(_)
        | Happening::Unworked
        | Happening::Unsound(_)
        | Happening::Unanswered(_) => {}
    }
}

/// Puts the event of a notice that was served to a session behind those before: its lock at the node came down, or nothing did.
pub fn record_demotion(events: &mut Vec<Event>, to: Session, node: Node, demotion: Option<Demotion>)
    requires room { vec_len events.old < vec_capacity events.old }
    ensures events { map event_of events.new.items ≡ map event_of events.old.items ++ demoted_by to.number node demotion }
    ensures len { vec_len events.new ≤ vec_len events.old + 1 }
    ensures capacity { vec_capacity events.new ≡ vec_capacity events.old }
{
    if let Some(Demotion { from, to: mode }) = demotion {
        events.push_reserved(Event::Demoted(to, node, from, mode));
    }
}

/// Puts the death of a session behind the events before.
pub fn record_death(events: &mut Vec<Event>, s: Session, cause: Cause)
    requires room { vec_len events.old < vec_capacity events.old }
    ensures events { map event_of events.new.items ≡ map event_of events.old.items ++ Died s.number cause ∷ [] }
    ensures len { vec_len events.new ≡ vec_len events.old + 1 }
    ensures capacity { vec_capacity events.new ≡ vec_capacity events.old }
{
    events.push_reserved(Event::Died(s, cause));
}

/// Puts a step of a session's recovery behind the events before: where the session is recovered, that is an event.
pub fn record_recovery(events: &mut Vec<Event>, s: Session, step: Recovery)
    requires room { vec_len events.old < vec_capacity events.old }
    ensures events { map event_of events.new.items ≡ map event_of events.old.items ++ recovery_events s.number (Ok step) }
    ensures len { vec_len events.new ≡ vec_len events.old + length (recovery_events s.number (Ok step)) }
    ensures capacity { vec_capacity events.new ≡ vec_capacity events.old }
{
    match step {
        Recovery::More => {}
        Recovery::Done {
            is_committed,
            moment,
        } => events.push_reserved(Event::Recovered(s, is_committed, moment)),
    }
}
