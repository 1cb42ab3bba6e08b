//! The steps of a commit of a store of lines on a disk.
#![tactic(auto)]

mod committing;

pub use committing::{commit_step, is_at_barrier};
