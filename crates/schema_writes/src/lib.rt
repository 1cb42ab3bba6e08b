//! Definitions and deletions written over the view of a statement.
#![tactic(auto)]

mod definitions;
mod deletions;
mod stop;
mod writing;

pub use definitions::{define_field, define_relation};
pub use deletions::{delete_index, delete_relation};
pub use stop::{SchemaRefusal, SchemaStop, known_stop};
pub use writing::put_all;
