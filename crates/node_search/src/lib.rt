//! Nodes of sorted indexes searched where they lie: no byte of them is copied.
#![tactic(auto)]

mod entry;
mod key;
mod node;
mod value;
mod wanted;

pub use entry::{BorrowedEntry, FoundEntry};
pub use key::BorrowedKey;
pub use node::{BorrowedNode, first_entry, next_entry, node_in};
pub use wanted::{Wanted, wanted_child};
