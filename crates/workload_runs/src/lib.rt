//! A workload: a new database, sessions that make accounts, sessions that move money between them side by side, one that counts it, and a verification.
#![tactic(auto)]

mod accounts;
mod ending;
mod gate;
mod laws;
mod part;
mod preparing;
mod runs;
mod saying;
mod stand;
mod stopping;
mod whole;

pub use line_runs::{
    FormerDisk, Halt, LineRun, Origin, ReservingStatements, Said, say_in_order, say_in_threads,
};
pub use preparing::Part;
pub use rmu_commands::{dump_command, page_command, verify_command};
pub use saying::status_of_fault;
pub use stopping::{seen, status_of_halt};
pub use whole::{Plan, WorkloadEnd, workload};
