//! The logical areas of the relations that a statement uses.
#![tactic(auto)]

mod laws;

pub use laws::{areas_are_the_schemas, more_uses_use_more};
