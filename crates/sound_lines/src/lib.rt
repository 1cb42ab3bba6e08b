//! The tables that a map of lines stands for, and what makes a map sound.
#![tactic(auto)]

mod laws;
mod relations;
mod rows;
mod sizes;
mod tables;
mod versions;

pub use laws::{
    bad_is_no_tables, empty_is_sound, key_of_names, one_tables, rows_follow_lines,
    sound_has_tables, worked_is_sound,
};
pub use sizes::longest_key;
pub use tables::read_tables;
pub use versions::{version_of, versions_of};
