//! A whole backup of a database, which is opened before.
#![tactic(auto)]

mod opened;
mod steps;
mod whole;

pub use opened::open_and_back_up;
pub use whole::back_up;
