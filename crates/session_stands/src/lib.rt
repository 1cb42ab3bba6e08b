//! What the memory of a store and the tree of locks know of each session, whether or not the store shows what it holds; and what is true of all sessions there.
#![tactic(auto)]

mod laws;

pub use laws::{sessions_stay_seated, what_is_shown_is_kept};
