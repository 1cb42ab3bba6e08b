//! The verification of a database at rest: all faults of its pages, of its catalog, of its rows and of its indexes.
#![tactic(auto)]

mod indexes;
mod laws;
mod lines;
mod listing;
mod owners;
mod relations;
mod rows;
mod strays;
mod whole;

pub use laws::no_fault_is_sound;
pub use whole::verify;
