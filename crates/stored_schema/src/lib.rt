//! A catalog with how its relations are stored, written and read.
#![tactic(auto)]

mod indexes;
mod schema;

pub use schema::Schema;
