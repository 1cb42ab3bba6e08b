//! The whole groups of an after-image journal, passed one by one without their lines.
#![tactic(auto)]

mod group;
mod passing;

pub use group::pass_group;
pub use journal_reading::{AijFault, read_header};
pub use passing::PassedGroup;
