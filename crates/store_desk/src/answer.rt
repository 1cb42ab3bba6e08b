// What the calls of a desk answer.
ghost use Rattle.std.specs.Prelude.{◌≡◌, true};
ghost use Rattle.rdb_page.specs.Page.{IsClass};

use line_store::{Progress, ReadStop};
use rdb_types::Dbkey;

/// What a call came to.
#[derive(Clone, Copy, Debug, PartialEq, Eq)]
pub enum Answer {
    /// The session doesn't stand where this call may be made.
    NotNow,
    Done,
    More,
    Committed,
    /// Whether its commit stands.
    Recovered(bool),
    Room(Dbkey),
    /// The page was taken otherwise before.
    Taken,
    /// There is no room within this limit.
    Full(u32),
    Unfit,
    NoMemory,
    Fails,
}

/// Whether this is a class of pages.
pub(crate) fn is_class(class: u16) -> bool
    ensures { result ≡ true → IsClass class }
{
    class == 208 || class == 440
}

/// What reading came to.
pub(crate) fn read(came: Result<Progress, ReadStop>) -> Answer {
    match came {
        Ok(Progress::Done) => Answer::Done,
        Ok(Progress::More) => Answer::More,
        Err(ReadStop::NoMemory) => Answer::NoMemory,
        Err(ReadStop::Fault(_)) => Answer::Fails,
    }
}
