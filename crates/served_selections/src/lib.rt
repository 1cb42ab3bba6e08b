//! What selections read of their relations, and what of those that indexes serve.
#![tactic(auto)]

mod laws;

pub use laws::{indexes_spare_areas, needs_are_of_relations};
