//! Jobs of statements that are lent under a lock and worked outside it: what comes back is right for the job that went out.
#![tactic(auto)]

mod remembering;
mod worked_job;

pub use remembering::{Remembering, Remembers};
pub use worked_job::WorkedJob;
