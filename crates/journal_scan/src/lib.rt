//! The whole groups of an after-image journal, which are read slot by slot, and the room that is left for more.
#![tactic(auto)]

mod full;
mod group;
mod laws;
mod scan;

pub use aij_journal::{AijPart, GroupLine, put_header, put_slot, read_header, read_slot};
pub use full::{AijFull, room};
pub use group::{Group, GroupLines, Groups};
pub use laws::{finds_what_was_written, finds_whole_groups, one_thing_stands, reads_in_pieces};
pub use scan::{Begun, Scan, Stage, Turn};
