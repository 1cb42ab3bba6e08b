//! Transactions over lines: what each said holds whatever others commit, and its needs are those that its statements ask for.
#![tactic(auto)]

mod laws;

pub use laws::{needs_are_asked_for, standings_stay_read_write, transactions_hold};
pub use session_jobs::{Found, Needs, Statements, TxRecord};
