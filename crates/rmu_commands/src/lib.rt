//! The commands of RMU that read a database which nobody has open, and write what they find.
#![tactic(auto)]

mod dumping;
mod roots;
mod verifying;
mod writing;

pub use dumping::{dump_command, page_command};
pub use verifying::verify_command;
