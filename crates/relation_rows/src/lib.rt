//! The rows of a relation, read from lines as far as a view knows them.
#![tactic(auto)]

mod laws;
mod reading;
mod stored;

pub use laws::rows_of_the_lesser_class_are_short;
pub use reading::{row, rows};
pub use stored::{Rows, StoredRelation, StoredRow, are_values_of};
