//! What a reader sees of a line: its version is read from the snapshot files of any disk. And the write that keeps a version there.
#![tactic(auto)]

mod line;
mod push;
mod reader;
mod walk;

pub use line::{bytes_of, reader_version};
pub use push::push_version;
pub use reader::Reader;
