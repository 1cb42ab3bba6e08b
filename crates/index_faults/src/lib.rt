//! The faults of sorted indexes: nodes that aren't in order, and indexes that don't hold the keys of their rows.
#![tactic(auto)]

mod between;
mod contents;
mod nodes;
mod walk;

pub use contents::{Judgement, judge_contents};
pub use walk::{Walk, walk_index};
