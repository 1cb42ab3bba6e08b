//! The lines of a database at rest, as they were before the transactions that are open: read, and not written.
#![tactic(auto)]

mod entries;
mod laws;
mod lines;
mod open;

pub use laws::laid_lines_show;
pub use lines::{BeforeImages, OpenTransaction, line_before, read_before_images};
