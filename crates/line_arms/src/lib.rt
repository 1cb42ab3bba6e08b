//! One step of a session that lives, by its phase and stage: each arm calls the step of its stage, and what that asks is shown from where
//! memory has the session.
#![tactic(auto)]

mod allotment;
mod ending;
mod gathering;
mod going;
mod reading;
mod working;
mod writing;

pub use allotment::Allotment;
pub use going::go_on;
