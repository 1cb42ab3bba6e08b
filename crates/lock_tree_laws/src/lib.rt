//! The laws of the tree of locks, over plain data: who waits waits by needs, and no lock goes to and fro.
#![tactic(auto)]

mod answer;
mod laws;
mod progress;

pub use answer::Want;
pub use laws::{answers_are_by_needs, making_way_keeps_the_order, waits_are_by_needs};
pub use progress::the_measure_falls;
