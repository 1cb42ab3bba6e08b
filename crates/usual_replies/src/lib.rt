//! No item means a reply of locks, limits or memory.
#![tactic(auto)]

mod laws;

pub use laws::no_item_means_a_refusal_of_means;
