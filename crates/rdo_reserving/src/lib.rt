//! The executor over lines, which also names the locks of what a START_TRANSACTION reserves, and tells of changes that nothing refuses
//! before their work.
#![tactic(auto)]

mod reaching;
mod reserving;

pub use reserving::ReservingStatements;
