//! Values that are lent under a lock, worked outside it and given back: what comes back is what went out.
#![tactic(auto)]

mod desk;
mod loan;
mod receipt;
mod rule;

pub use desk::{Desk, Naming, Opened};
pub use loan::{Answer, Loan, Maker, Worked};
pub use receipt::Receipt;
