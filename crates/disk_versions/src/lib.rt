//! Readers' versions on a disk: while the calls and the steps of the store keep what they rest on, each reader comes to the lines that were committed when it began.
#![tactic(auto)]

mod calls;
mod readers;
mod seats;
mod transactions;

pub use calls::{calls_keep_the_versions, slots_are_given_back, versions_are_found};
pub use readers::{readers_come_and_go, readers_see_their_lines};
pub use seats::{a_line_is_pushed, a_line_waits, lines_wait_on, lines_wait_through_steps};
pub use transactions::transactions_keep_the_versions;
