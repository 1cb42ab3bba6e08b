//! The catalog, from its lines.
#![tactic(auto)]

mod deletions;
mod directory;
mod reading;
mod schema;

pub use deletions::{delete_index, delete_relation};
pub use directory::{Directory, FieldPlace, LogicalArea, PlacedField, PlacedLine};
pub use rdb_definitions::longest_value;
pub use reading::{Catalog, bad_is_no_catalog, one_catalog, read_catalog};
pub use schema::things_differ;
