//! Logical areas of a database that nobody has open: a view of one, and how many lines it has.
#![tactic(auto)]

mod areas;

pub use areas::{count_lines, view_of};
pub use lines_at_rest::{AreaLines, FaultyPages, RestReading, read_area};
