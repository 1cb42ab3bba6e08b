// What a job comes to, from its parts.
ghost use Rattle.std.specs.Prelude.{◌≡◌, []};
ghost use Rattle.rdb_meaning.specs.Usual.{is_refusal_of_means};
ghost use Rattle.rdo_exec.specs.Answers.{answer_of, answer_by, found_of_stop};

use line_view::{Known, Need, Never, Stop};
use rdb_types::{Items, NoMemory};
use rdo_ast::reply::{Reply, Standing};
use session_jobs::{Found, TxRecord};
use std::alloc::Global;
use stored_schema::Schema;

/// What was known, given back, and what the work came to.
#[derive(Drop)]
pub(crate) struct Returned {
    pub known: Known,
    pub found: Found,
}

/// The same, with the catalog that is kept.
#[derive(Drop)]
pub(crate) struct Worked {
    pub known: Known,
    pub kept: Option<Schema>,
    pub found: Found,
}

// Whether a reply is one that locks, limits or memory give, and that no item means.
fn is_unmeant(reply: &Reply) -> bool
    ensures { result ≡ is_refusal_of_means reply.now }
{
    match reply {
        Reply::LockConflict(_)
        | Reply::Deadlock(_)
        | Reply::AreaFull(_)
        | Reply::RujFull(_)
        | Reply::AijFull(_)
        | Reply::SnapFull(_)
        | Reply::NoMemory => true,
        Reply::Done(_)
        | Reply::Syntax { .. }
        | Reply::NoSuch(_)
        | Reply::Exists(_)
        | Reply::TypeClash
        | Reply::Overflow
        | Reply::Duplicate(_)
        | Reply::NoTransaction
        | Reply::InTransaction
        | Reply::ReadOnly
        | Reply::NotReserved(_)
        | Reply::TooLong => false,
    }
}

/// The record of an item that stores and writes nothing. No item means a reply of locks, limits or memory; the test spares showing it of each refusal anew.
pub(crate) fn answered(alloc: Global, reply: Reply, behind: Standing) -> Found
    ensures { result ≡ answer_of reply behind }
{
    if is_unmeant(&reply) {
        return Found::Unworked;
    }
    Found::Done(TxRecord {
        choices: Items::new(alloc),
        reply,
        standing: behind,
        writes: Items::new(alloc),
    })
}

/// The same, where memory may have failed.
pub(crate) fn answered_by(
    alloc: Global,
    reply: Result<Reply, NoMemory>,
    behind: Result<Standing, NoMemory>,
) -> Found
    ensures { result ≡ answer_by reply behind }
{
    match (reply, behind) {
        (Ok(reply), Ok(behind)) => answered(alloc, reply, behind),
        (Ok(_), Err(_)) | (Err(_), _) => Found::NoMemory,
    }
}

/// The reply of an item that is done and prints nothing.
pub(crate) fn done(alloc: Global) -> Reply
    ensures { result ≡ Reply.Done [] }
{
    Reply::Done(Items::new(alloc))
}

/// One need alone.
pub(crate) fn missing(alloc: Global, need: Need) -> Found
    ensures { result ≡ Found.Missing need [] }
{
    Found::Missing {
        next: need,
        later: Items::new(alloc),
    }
}

/// What reading comes to that stops.
pub(crate) fn stopped(alloc: Global, stop: Stop<Never>) -> Found
    ensures { result ≡ found_of_stop stop }
{
    match stop {
        Stop::Missing(need) => missing(alloc, need),
        Stop::Bad(key) => Found::Bad(key),
        Stop::NoMemory => Found::NoMemory,
    }
}
