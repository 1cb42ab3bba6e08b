//! Needs of nodes of the lock tree over plain data: which nodes contain which, which needs conflict, what a lock must keep for
//! an owner's needs and its open want, and who waits for whom by needs.
#![tactic(auto)]

mod index;
mod keeping;
mod need;
mod node;
mod party;
mod waiting;

pub use keeping::is_excess;
pub use need::{Need, conflict, covers_below};
pub use node::{contains, is_above, is_on, level_under, node_above, on_way, step_towards};
pub use party::{Asked, OpenWant, Party, mode_for};
pub use rdb_types::{
    Bytes, Cause, Chars, Items, Keys, Level, Moment, NoMemory, Node, Printed, Scaled, Session,
    Value,
};
pub use vms_queues::Mode;
pub use waiting::waits_for;
