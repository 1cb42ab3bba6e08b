//! A backup that has the lines of a map up to a key, and grows by one line a step: the lines may be told one behind another, while others use the disk between the steps.
#![tactic(auto)]

mod copying;
mod laws;

pub use copying::Copying;
pub use laws::{a_copy_is_whole, a_crash_leaves, others_keep_it};
