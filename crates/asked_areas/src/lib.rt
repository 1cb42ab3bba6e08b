//! Work that keeps to the areas of the relations that a statement names asks for the locks that it wants.
#![tactic(auto)]

mod laws;

pub use laws::{areas_are_asked_for, jobs_ask_for_their_areas};
