//! The steps of the recovery of a session that died, of a store of lines on a disk.
#![tactic(auto)]

mod judging;
mod recovering;

pub use judging::judge;
pub use recovering::recover;
pub use store_endings::{die, end_reading, put_away, roll_back};
