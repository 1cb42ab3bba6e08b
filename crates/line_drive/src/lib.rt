//! The sessions of a run over a store of lines, driven to their ends: by turns in a stated order, or by a thread each.
#![tactic(auto)]

mod driver;
mod run;

pub use driver::LineDriver;
pub use line_cluster::{Halt, LineCluster, Origin};
pub use run::{Ran, run_in_order, run_in_threads};
