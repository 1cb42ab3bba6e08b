//! Lines laid on their pages, one by one, behind a root that says that the database is unfinished.
#![tactic(auto)]

mod entering;
mod laying;

pub use laying::lay_line;
