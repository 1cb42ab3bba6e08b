//! The locks of what a START_TRANSACTION reserves: what they are, and who names them.
#![tactic(auto)]

mod laws;
mod locks;
mod reserves;

pub use laws::reserved_locks_are_asked_for;
pub use locks::{Unnamed, locks_in};
pub use reserves::{LockNeeds, Reserves};
