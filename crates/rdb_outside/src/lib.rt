//! What stands outside the engine: a disk of numbered files of slots, which may fail and may crash, the source of the scripts and the sink of the output. Each has an implementation in memory.
#![tactic(auto)]

mod disk;
mod event;
mod laws;
mod memory_disk;
mod memory_streams;
mod streams;

pub use disk::Disk;
pub use laws::{
    a_number_picks_of_32, every_image_is_picked, every_pick_is_left, no_image_has_more_slots,
};
pub use memory_disk::MemoryDisk;
pub use memory_streams::{MemorySink, MemorySource};
pub use rdb_types::{
    Dbkey, FileId, FileKind, Image, Limits, LineState, Moment, NoMemory, Session, Tsn,
};
pub use streams::{Failed, Sink, Source};
