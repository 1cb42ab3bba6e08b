//! Readers, while a member commits: each turn of a commit keeps what they come to.
#![tactic(auto)]

mod turns;

pub use turns::a_turn_keeps_readers;
