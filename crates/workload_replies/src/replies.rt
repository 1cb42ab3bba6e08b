// Replies in an account.
ghost use Rattle.std.specs.Prelude.{◌≡◌};
ghost use Rattle.workload_replies.specs.Replies.{is_done_at, are_done, number_of, counted_by, counted_of, counted_among, has_death};

use rdb_account::Event;
use rdb_types::{Printed, Scaled, Value};
use rdo_ast::reply::Reply;

/// Two numbers that a statement printed on one line: how many accounts there are, and the sum of their balances.
#[derive(Clone, Copy, Debug, PartialEq, Eq)]
pub struct Counted {
    pub accounts: i64,
    pub total: i64,
}

fn is_done(event: &Event) -> bool
    ensures { result ≡ is_done_at event.now }
{
    match event {
        Event::Said(_, _, _, reply) => matches!(reply, Reply::Done(_)),
        _ => true,
    }
}

/// Whether each item that was said was done.
pub fn all_done(events: &[Event]) -> bool
    ensures { result ≡ are_done events.now }
{
    events.iter().all(|event| is_done(event))
}

fn number_in(scaled: &Scaled) -> Option<i64>
    ensures { result ≡ number_of scaled.now }
{
    match &scaled.value {
        Value::Number(number) => Some(*number),
        _ => None,
    }
}

// The numbers of one line of two.
fn counted_on(rows: &[Printed]) -> Option<Counted>
    ensures { result ≡ counted_by rows.now }
{
    let [row] = rows else {
        return None;
    };
    let [accounts, total] = row.as_slice() else {
        return None;
    };
    match (number_in(accounts), number_in(total)) {
        (Some(accounts), Some(total)) => Some(Counted { accounts, total }),
        _ => None,
    }
}

fn counted_at(event: &Event) -> Option<Counted>
    ensures { result ≡ counted_of event.now }
{
    match event {
        Event::Said(_, _, _, Reply::Done(rows)) => counted_on(rows.as_slice()),
        _ => None,
    }
}

/// What the first statement that printed two numbers alone has counted.
pub fn counted_in(events: &[Event]) -> Option<Counted>
    ensures { result ≡ counted_among events.now }
{
    for event in events {
        if let Some(counted) = counted_at(event) {
            return Some(counted);
        }
    }
    None
}

/// Whether some session died.
pub fn some_died(events: &[Event]) -> bool
    ensures { result ≡ has_death events.now }
{
    events.iter().any(|event| matches!(event, Event::Died(..)))
}
