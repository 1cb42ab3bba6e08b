//! The lines of a database that nobody has open, copied to a backup in the order of their Dbkeys.
#![tactic(auto)]

mod copying;
mod pages;

pub use pages::copy_all;
