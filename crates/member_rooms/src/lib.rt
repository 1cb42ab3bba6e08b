//! Rooms for a session on a disk, by the table of an area file's pages and by what its transaction wrote.
#![tactic(auto)]

mod classes;
mod laws;
mod rooms;

pub use classes::class_of;
pub use committed_tables::PageTable;
pub use laws::rooms_beside_are_shown;
pub use rooms::{is_new, next_room};
pub use store_shows::{CommitTurn, NUMBERS};
