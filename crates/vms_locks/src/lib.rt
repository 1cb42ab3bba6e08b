//! The lock table: the queues of every node, who waits for whom over all of them, and cycles of waits.
#![tactic(auto)]

mod answer;
mod locks;
mod places;
mod requests;
mod review;
mod search;
mod table;
mod waits;

pub use answer::{Cycle, Enq};
pub use locks::Locks;
pub use rdb_types::{Level, Node};
