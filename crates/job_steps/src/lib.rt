//! What comes of a job: what it lacked is gathered, and what a START_TRANSACTION reserves is locked before it is said.
#![tactic(auto)]

mod jobs;
mod reserving;

pub use gathering_steps::{
    Common, End, Gather, ItemQueue, Laying, Phase, Reader, ReaderRound, ReaderStage, ReaderTerms,
    ReaderWork, Stage, Terms, Turned, Work, Writer, change, commit, compute_reading, fetch_locked,
    fetch_reading, forgo, forgo_reading, go_away, go_on_copying, hand_out, hand_out_reading, land,
    lay, leave, leave_reading, lock_of, open, prepare, put_away, quiet, roll_back, start,
    take_found_reading, take_up, take_up_reading, want, want_journal,
};
pub use jobs::{compute, take_found};
pub use reserving::{Reserving, want_reserved};
