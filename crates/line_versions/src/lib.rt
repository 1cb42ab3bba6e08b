//! Versions of lines for readers: what a reader sees of a line, and that it stays what was committed when the reader began.
#![tactic(auto)]

mod laws;

pub use laws::{
    readers_come_to_their_lines, steps_keep_versions, undone_entries_are_free, walks_are_short,
    wanted_entries_are_exact,
};
