//! A backup of what a reader sees, line by line, while others change the database between its steps.
#![tactic(auto)]

mod copies;
mod steps;

pub use next_lines::{Copying, NextLine, next_line};
pub use steps::copy_next;
