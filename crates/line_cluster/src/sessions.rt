//! What all sessions share, and the sessions.
use crate::allotments::Allotments;
use crate::origin::Origin;
use lent_members::LentMember;
use lent_values::{Desk, Naming};
use line_account::Common;
use line_store::{Fault, LineStore};
use rdb_account::Event;
use rdb_types::{Dbkey, Session};
use session_jobs::{Job, Statements};
use std::marker::PhantomData;

/// Why no session goes on any more.
#[derive(Clone, Copy, Debug)]
pub enum Halt {
    /// A device call failed in a step of a recovery, or the store has used up its numbers, and says so of this slot.
    Device(Fault),
    /// The store has no place for this line, which a statement wrote.
    Unlaid(Dbkey),
    /// Who works statements doesn't work this one.
    Unworked,
    /// What a session knows agrees with no sound database: this line is none of its kind.
    Unsound(Dbkey),
    /// A session was to go on whose job is out. No driver asks for that that gives back what it was lent.
    Lost,
}

/// What a turn of a session came to.
#[derive(Clone, Copy, Debug)]
pub enum Turn {
    Moved,
    /// It waits for this session.
    Asleep(Session),
    /// A device call failed in its step, its script has come to a stop, or no memory was found, and it died.
    Died,
    /// A session that died awaits its recovery.
    Frozen,
    /// It has nothing left to do.
    Ended,
    /// No session goes on.
    Stopped,
}

/// The sessions, what they share, and what happened.
#[derive(Drop)]
pub struct Core<O: Origin + Naming, S: Statements, L: LineStore> {
    pub common: Common<L>,
    pub members: Vec<LentMember<O, S>>,
    /// It lends their jobs.
    pub desk: Desk<O, Job>,
    pub allotments: Allotments,
    /// What happened, with room behind it for all deaths and recoveries that may still come.
    pub events: Vec<Event>,
    /// Why no session goes on, once that is so.
    pub halt: Option<Halt>,
    pub of: PhantomData<(O, S)>,
}
