//! The committed line of a key, read from a disk on which members have transactions open.
#![tactic(auto)]

mod lines;
mod seen;

pub use lines::committed_line;
pub use seen::HasBeforeImages;
