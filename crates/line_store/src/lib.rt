//! The store of lines that sessions stand on, as a trait. Who keeps lines in memory or on a disk implements it; who steps sessions
//! stands on the trait alone.
#![tactic(auto)]

mod answers;
mod store;

pub use answers::{ChangeStop, CommitStop, Fault, Progress, ReadStop, Stepped};
pub use area_files::{
    BadPage, Head, is_allowed_line, lines_of, put_head, put_line, read_head, read_line, slot_of,
    space_page_of, storage_area,
};
pub use rdb_outside::{Disk, Failed};
pub use store::LineStore;
