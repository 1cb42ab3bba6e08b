//! In which logical areas selections read.
#![tactic(auto)]

mod laws;

pub use laws::{areas_are_those_of_the_tables, selections_read_what_they_name};
pub use statement_sources::{Schema, sources};
