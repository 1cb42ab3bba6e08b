//! A store of lines in memory: a sorted map of lines, to which the store on a disk is compared. It has the limits of pages and of the
//! lines that a transaction writes, and no journals, snapshot files or disk; a crash leaves nothing of it.
#![tactic(auto)]

mod committed;
mod copiers;
mod lines;
mod reading;
mod rooms;
mod seat;
mod seats;
mod store;

pub use store::MemoryStore;
