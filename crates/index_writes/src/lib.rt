//! DEFINE INDEX over the view of a statement: the index is filled from the rows that are there.
#![tactic(auto)]

mod definition;
mod filling;
mod reading;

pub use definition::define_index;
