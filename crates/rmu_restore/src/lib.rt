//! A database made from a backup.
#![tactic(auto)]

mod blanking;
mod journal;
mod laying;
mod restoring;

pub use restoring::restore;
