//! The groups of journals laid over the pages of a database that is rolled forward, line by line and with one group in memory.
#![tactic(auto)]

mod groups;
mod journals;
mod lines;
mod passing;

pub use journals::lay_journal;
pub use passing::{Reached, pass_journal};
