//! The snapshot file of a storage area: the versions of lines that readers may still want, each in a slot of its own.
#![tactic(auto)]

mod entry;
mod free;
mod stock;

pub use entry::{SnapEntry, one_entry, put_entry, read_entry};
pub use free::{Free, SnapFull};
pub use stock::Stock;
