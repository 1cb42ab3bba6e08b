//! What is checked before an action is done: names in the order of the text, then reservations, then types.
#![tactic(auto)]

mod action_names;
mod action_types;
mod action_uses;
mod names;
mod refusal;
mod reservations;
mod scopes;
mod stop;
mod types;
mod uses;

pub use rdb_meaning::{FieldAt, Index, Relation, Tables, field_of, same_name};
pub use refusal::{check_action, is_retrieval};
pub use reservations::{
    check_change_reserved, check_index_reserved, check_reserved_names, reservations_of,
};
pub use scopes::scope_with_ranges;
pub use stop::{Stop, exists, no_such, not_reserved};
