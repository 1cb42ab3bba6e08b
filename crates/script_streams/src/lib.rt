//! Scripts read from a source, and transcripts written to a sink.
#![tactic(auto)]

mod read;
mod write;

pub use read::{LONGEST_SCRIPT, ReadStop, read_script};
pub use write::write_all;
