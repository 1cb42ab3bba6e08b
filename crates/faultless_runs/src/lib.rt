//! That a verification finds no fault in what sessions of this engine leave, or in what a crash leaves of it.
#![tactic(auto)]

mod laws;

pub use laws::{a_run_leaves_no_fault, tables_have_no_fault};
