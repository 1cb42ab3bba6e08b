//! The after-image journal: a header, and behind it the groups of the commits, each with the lines that its transaction changed and a slot that commits it.
#![tactic(auto)]

mod header;
mod part;

pub use header::{one_header, put_header, read_header};
pub use part::{AijPart, GroupLine, one_part, put_slot, read_slot};
pub use rdb_page::{Items, Limits, NoMemory, Tsn};
