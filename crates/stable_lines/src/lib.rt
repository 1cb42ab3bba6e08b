//! What the images of a disk stand for, and the facts on the pending contents of its slots from which it follows.
#![tactic(auto)]

mod history;
mod laws;
mod steps;

pub use history::{backups_roll_forward, images_since_a_commit};
pub use laws::{each_image_stands, new_is_kept, one_journal, one_map, opening_finds};
pub use new_database::{AijPart, Root, put_root, put_slot};
pub use ruj_journal::{RujEntry, open_tsn, put_entry, put_header, read_entry};
pub use space_pages::{check, owner, set};
pub use steps::{a_barrier_gains, a_write_keeps_the_facts, beginnings_keep_the_facts};
