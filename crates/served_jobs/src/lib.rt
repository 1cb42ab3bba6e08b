//! What jobs name that act, where indexes serve their selections.
#![tactic(auto)]

mod laws;

pub use laws::indexes_spare_areas_of_jobs;
