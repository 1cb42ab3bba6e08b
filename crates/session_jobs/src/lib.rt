//! Statements worked outside the lock: what a job is, what it comes to, and what is promised of that. Who works them is a trait, so
//! that who asks for them knows no executor.
#![tactic(auto)]

mod jobs;
mod outcome;
mod statements;

pub use jobs::{Answer, Found, Job, Needs, TxRecord};
pub use outcome::Outcome;
pub use statements::Statements;
