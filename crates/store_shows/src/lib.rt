//! Laws alone: of a store on a disk, what a crash may leave, and which rooms and pages there are, is what the trait of stores asks for, by the ledger of its members' transactions and its tables of pages.
#![tactic(auto)]

mod laws;
mod rooms;

pub use laws::{a_crash_leaves_what_may_stand, what_may_stand_lasts};
pub use member_steps::{CommitTurn, NUMBERS};
pub use rooms::{pages_are_taken, rooms_are_shown};
