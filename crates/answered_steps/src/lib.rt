//! A statement whose job was worked outside the lock: what it came to is taken.
#![tactic(auto)]

mod answered;

pub use answered::{Absence, take_answered};
