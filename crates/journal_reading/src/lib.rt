//! The whole groups of an after-image journal, read from any disk.
#![tactic(auto)]

mod one_group;
mod reading;
#[cfg(test)]
mod tests;

pub use journal_scan::{AijPart, read_header, read_slot};
pub use one_group::group_at;
pub use rdb_outside::Disk;
pub use reading::{AijFault, first_number, scan};
