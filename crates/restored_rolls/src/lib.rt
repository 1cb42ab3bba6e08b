//! What a restore leaves may be rolled forward, and what was lost comes back so. Laws alone.
#![tactic(auto)]

mod laws;

pub use laws::{
    copies_follow, copies_stand, restored_disks_may_be_rolled, restored_may_be_rolled,
    what_was_lost_comes_back,
};
