//! What actions read whose selections indexes serve.
#![tactic(auto)]

mod laws;

pub use laws::indexes_spare_areas_of_actions;
