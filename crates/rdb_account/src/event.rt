//! The events of a run.
use lock_needs::{Cause, Items, Keys, Mode, Moment, Node, Session};
use rdo_ast::reply::{Reply, Standing};
use rdo_ast::syntax::Item;

/// One event of a run, with the session that it is of.
#[derive(Drop)]
pub enum Event {
    /// A transaction began, of this kind.
    Began(Session, Standing),
    /// A need is wanted: its node and its mode, and then the node at which it is asked.
    Wanted(Session, Node, Mode, Node),
    /// A need was got.
    Got(Session, Node, Mode),
    /// A lock was brought down from the first mode to the second.
    Demoted(Session, Node, Mode, Mode),
    /// An item was answered. The keys are those that its stored rows were given.
    Said(Session, Item, Keys, Reply),
    Committed(Session, Moment),
    RolledBack(Session),
    Died(Session, Cause),
    /// A dead session's transaction was committed (true) or undone.
    Recovered(Session, bool, Moment),
}

/// The events of a run, in their order.
pub type Events = Items<Event>;
