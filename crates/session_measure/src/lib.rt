//! What falls with each step of a session over lines, so that its script comes to an end.
#![tactic(auto)]

mod coming;
mod ends;
mod readers;
mod sums;
mod work;

pub use coming::sessions_come_nearer;
pub use ends::transactions_go_on;
pub use readers::readers_go_on;
pub use sums::{all_come_nearer, all_fall_with_one};
pub use work::{locks_come_nearer, statements_go_on};
