//! Each definition and deletion, whole, over a sound map of lines.
#![tactic(auto)]

mod laws;

pub use laws::{
    define_field_stays_sound, define_index_stays_sound, define_relation_stays_sound,
    delete_index_stays_sound, delete_relation_stays_sound,
};
