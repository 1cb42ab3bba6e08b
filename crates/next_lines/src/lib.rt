//! Which line was used next, in the order of Dbkeys, over the tables of pages of all area files. Nothing is read and no memory is taken.
#![tactic(auto)]

mod areas;
mod next;

pub use next::{NextLine, next_line};
pub use partial_backup::Copying;
