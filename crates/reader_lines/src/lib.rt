//! The lines of a disk as a read-only transaction sees them: those that were committed when it began.
#![tactic(auto)]

mod areas;
mod lines;

pub use areas::reader_area;
pub use lines::reader_line;
pub use seen_lines::{HasBeforeImages, own_area, present_lines, seen_area, seen_line};
pub use version_writing::{MayWant, SnapshotSlots, Wanted, is_wanted, push_aside};
