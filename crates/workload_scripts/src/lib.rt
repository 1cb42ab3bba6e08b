//! The scripts of the workload: accounts that are stored, transfers between them, and what they come to; and what is written of it.
#![tactic(auto)]

mod draws;
mod report;
mod scripts;
mod texts;

pub use draws::Transfer;
pub use report::{Report, report_text};
pub use scripts::{first_script, last_script, transfer_scripts};
