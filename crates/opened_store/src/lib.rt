//! A database is opened, and is a store of lines behind that.
#![tactic(auto)]

mod laws;
mod opening;
mod tables;
mod using;

pub use disk_store::Held;
pub use laws::{a_crash_leaves_what_opens, a_new_database_opens, snapshot_slots_are_left_out};
pub use opening::open;
