//! The rows of a relation that are come by, by a scan of its logical area or by one of its indexes, read from lines as far as a view knows them.
#![tactic(auto)]

mod access;
mod laws;
mod reading;

pub use access::accessed;
pub use laws::{access_loses_no_row, rows_are_wide};
