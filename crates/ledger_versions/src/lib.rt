//! Readers' versions beside the ledger of all members: what the calls and steps of a store on a disk keep of them.
#![tactic(auto)]

mod calls;
mod lines;
mod members;
mod reading;

pub use calls::calls_keep_readers;
pub use disk_seats::{raise_ceiling, settle};
pub use lines::{a_line_is_journalled, a_line_joins, lines_join_without_a_push};
pub use members::{members_keep_readers, standings_keep_readers};
pub use reading::{readers_and_slots, readers_begin, readers_see_their_lines};
