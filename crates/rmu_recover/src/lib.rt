//! A restored database rolled forward over the copies of its after-image journal and that journal.
#![tactic(auto)]

mod fault;
mod fitting;
mod journals;
mod recovering;

pub use fault::RecoverFault;
pub use recovering::recover;
