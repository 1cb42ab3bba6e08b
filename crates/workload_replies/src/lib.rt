//! What the accounts of a workload say: whether all was done, and what was counted.
#![tactic(auto)]

mod replies;

pub use replies::{Counted, all_done, counted_in, some_died};
