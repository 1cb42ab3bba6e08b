//! What expressions, conditions and selections give on tables in memory, where variables are bound to rows.
#![tactic(auto)]

mod binding;
mod cursor;
mod evaluate;
mod reading;
mod reducing;
mod scale;
mod select;
mod sorting;
mod tuples;

pub use evaluate::{chooses, value_of};
pub use reading::read;
pub use select::selection;
pub use tuples::Tuples;
