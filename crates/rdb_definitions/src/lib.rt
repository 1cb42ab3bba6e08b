//! What definitions and deletions do to tables in memory.
#![tactic(auto)]

mod areas;
mod fields;
mod indexes;
mod keys;
mod relations;

pub use fields::define_field;
pub use indexes::{check_index_exists, check_index_names, define_index, delete_index};
pub use rdb_checks::{Index, Relation, Stop, Tables, same_name};
pub use relations::{check_relation_exists, define_relation, delete_relation};
pub use row_sizes::longest_value;
