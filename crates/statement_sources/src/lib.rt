//! What selections read of the relations of a catalog.
#![tactic(auto)]

mod schema_sources;

pub use schema_sources::sources;
pub use stored_schema::Schema;
