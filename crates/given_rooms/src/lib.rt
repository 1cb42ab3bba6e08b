//! The rooms that a statement was given: lines on which it may put new rows.
#![tactic(auto)]

mod rooms;

pub use rooms::Rooms;
