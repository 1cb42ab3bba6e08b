//! What a store on a disk shows while a backup is made beside it, and what it gives to the steps of that backup: laws alone.
#![tactic(auto)]

mod laws;
mod reading;

pub use laws::{a_store_is_shown_beside, a_store_leaves_backups};
pub use reading::a_reader_may_be_copied;
