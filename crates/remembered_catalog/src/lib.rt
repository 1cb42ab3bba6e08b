//! The catalog that is remembered from job to job, whosever they are, with the lines that it was read from.
#![tactic(auto)]

mod memory;
mod part;
mod shown;

pub use memory::CatalogMemory;
pub use rdo_exec::RdoStatements;
