//! Versions pushed aside for readers: which slots of the snapshot files are in use, and the write that puts a line into one of them. And what a reader sees of a line.
#![tactic(auto)]

mod aside;
mod file_slots;
mod laws;
mod pushing;
mod reading;
mod sifting;
mod snapshot_slots;
mod wanting;

pub use aside::push_aside;
pub use file_slots::FileSlots;
pub use laws::{slots_are_held, slots_come_free};
pub use pushing::push_line;
pub use reading::line_for_reader;
pub use snapshot_slots::{SnapshotSlots, Wanted};
pub use wanting::{MayWant, is_wanted};
