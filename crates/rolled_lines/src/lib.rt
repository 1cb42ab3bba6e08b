//! What the groups of journals make of a backup: which of them are laid over it, and that a stop while they are laid takes nothing away. Laws alone.
#![tactic(auto)]

mod laws;

pub use laws::{journals_follow, laid_again, restored_stands};
