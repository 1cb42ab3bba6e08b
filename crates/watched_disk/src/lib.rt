//! A disk that keeps whether a call of it failed.
#![tactic(auto)]

mod beginning;
mod disk;

pub use beginning::Beginning;
pub use disk::WatchedDisk;
