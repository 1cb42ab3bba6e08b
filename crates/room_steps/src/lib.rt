//! Rooms of statements: a line is named for what a job lacks as a room, it is locked and read, its page is taken, and the room is known.
#![tactic(auto)]

mod given;
mod housing;
mod lodging;
mod naming;

pub use gathering_steps::{Round, fetch_gathered};
pub use given::Given;
pub use housing::house;
pub use lodging::lodge;
