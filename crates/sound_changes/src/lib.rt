//! What the writes of one row leave of a sound map of lines.
#![tactic(auto)]

mod laws;

pub use laws::{
    a_fitting_row_is_stored, a_key_is_taken, a_pair_is_moved, a_pair_is_put,
    a_relation_has_its_version, a_room_may_be_given, a_row_goes_through_its_indexes,
    a_row_is_written, an_index_waits, indexes_are_done, is_sound_as, the_schema_stays,
};
pub use sound_lines::{version_of, versions_of};
