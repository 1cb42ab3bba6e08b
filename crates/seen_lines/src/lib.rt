//! The lines of a disk as a read-write transaction sees them: those that are committed, under what it wrote itself and keeps in memory.
#![tactic(auto)]

mod areas;
mod lines;

pub use areas::{own_area, present_lines, seen_area};
pub use committed_lines::HasBeforeImages;
pub use committed_tables::PageTable;
pub use lines::seen_line;
