//! Which maps of lines are sound and have which tables, as one definition for who works statements and for what is proved of sessions.
#![tactic(auto)]

mod laws;

pub use laws::{sound_maps_are_in_order, the_empty_map_is_sound};
