//! The sessions of a run over a store of lines, stepped one at a time: one value has the store, the tree of locks, each session and
//! the account, and its type keeps what is true of them all.
#![tactic(auto)]

mod allotments;
mod behind;
mod cluster;
mod falls;
mod going;
mod numbers;
mod origin;
mod sessions;
mod turning;

pub use cluster::{Finished, LineCluster};
pub use origin::Origin;
pub use sessions::{Core, Halt, Turn};
