//! The store of lines on a disk as sessions ask for it.
#![tactic(auto)]

mod stepping;
mod store;

pub use store::DiskStore;
pub use store_copies::FormerDisk;
