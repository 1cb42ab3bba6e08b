// What happened in one step of a session, and where it leaves the session.
ghost use Rattle.std.specs.Prelude.{◌≡◌};

use crate::asks::Asks;
use line_store::Fault;
use lock_needs::Need;
use rdb_types::{Dbkey, Keys, Moment, Node};
use rdo_ast::reply::{Reply, Standing};
use rdo_ast::syntax::Item;
use session_limits::Phase;
use vms_queues::Mode;

/// An item with its answer, and the Dbkeys that its new rows were given.
#[derive(Drop)]
pub struct Answer {
    pub item: Item,
    pub keys: Keys,
    pub reply: Reply,
}

/// A want, and the nodes at which one call asked for it, in turn.
#[derive(Drop)]
pub struct Asking {
    pub need: Need,
    pub nodes: Asks,
}

/// What happened in one step.
#[derive(Drop)]
pub enum Happening {
    /// Nothing that an account tells.
    Quiet,
    /// A transaction of this kind began.
    Began(Standing),
    Answered(Answer),
    /// A START_TRANSACTION was answered otherwise than done, and its transaction has ended.
    Unstarted(Answer),
    /// The want waits for this session.
    Asleep(u32, Asking),
    /// This session's lock at the node is stronger than it has to be, and is in the way of the mode.
    Noticed(u32, Node, Mode, Asking),
    Got(Asking),
    /// A lock was refused, and so was the statement.
    Refused(Asking, Answer),
    /// A lock was refused, and so was a START_TRANSACTION, whose transaction has ended.
    RefusedStart(Asking, Answer),
    /// A COMMIT was done, at this moment.
    Committed(Moment),
    /// An online backup was done, at this moment, and its transaction has ended.
    BackedUp(Item, Moment),
    /// A ROLLBACK was done.
    RolledBack,
    /// The transaction was rolled back at the end of the script.
    Left,
    /// A device call failed, or a slot isn't what it has to be. The stage stands as it did, but for a change, which is broken by that.
    Failed(Fault),
    /// The store has no place for this line, which a statement wrote. The stage stands as it did.
    Unlaid(Dbkey),
    /// Who works statements doesn't work this one. The stage stands as it did.
    Unworked,
    /// The session knows what agrees with no sound database: this line is none of its kind. The stage stands with its job due.
    Unsound(Dbkey),
    /// Who works statements doesn't work this item, which was said outside a transaction. It is handed back.
    Unanswered(Item),
}

/// What a step made of a session's phase, and what happened.
#[derive(Drop)]
pub struct Turned {
    pub phase: Phase,
    pub happened: Happening,
}

/// The phase to which a step comes with nothing to tell.
pub fn quiet(phase: Phase) -> Turned
    ensures phase { result.phase ≡ phase }
    ensures happened { result.happened ≡ Happening.Quiet }
{
    Turned {
        phase,
        happened: Happening::Quiet,
    }
}

/// A device call failed, and the phase stands.
pub fn failed(fault: Fault, phase: Phase) -> Turned
    ensures phase { result.phase ≡ phase }
    ensures happened { result.happened ≡ Happening.Failed fault }
{
    Turned {
        phase,
        happened: Happening::Failed(fault),
    }
}
