//! Nodes of sorted indexes as bytes, and the order of their entries.
#![tactic(auto)]

mod entry;
mod node;
mod order;

pub use entry::{NodeEntry, entry_size};
pub use node::{
    IndexNode, entries_size, is_allowed_node, one_image, one_node, put_node, read_node,
};
pub use order::{entries_are_ordered, entry_order};
pub use record_format::{VersionedRow, read_row};
