//! The lines of a database that are at fault: those of the catalog, and those that are no rows.
#![tactic(auto)]

mod checked;
mod keys;
mod rows;
mod sound;

pub use checked::{CheckedCatalog, check_catalog};
pub use keys::ascending;
pub use rows::row_faults;
