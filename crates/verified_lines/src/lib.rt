//! What the faults of the lines of a database are, and what it says that there are none.
#![tactic(auto)]

mod laws;

pub use laws::no_fault_is_sound;
