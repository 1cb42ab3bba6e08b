//! A member's transaction: before-images while it changes lines, all pages at the commit, and the commit itself, step by step.
#![tactic(auto)]

mod commit;
mod ending;
mod journalling;
mod laws;
mod securing;

pub use commit::{CommitStage, GroupPlace, commit_step};
pub use ending::roll_back;
pub use journalling::journal_line;
pub use laws::{
    a_seat_begins, a_seat_gains, a_seat_goes_on, a_seat_keeps, a_stage_stays, lines_may_be_put,
};
pub use securing::secure;
