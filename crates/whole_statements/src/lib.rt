//! A plain executor, as a yardstick of what statements read: it reads all tables of what is known, and does the statement on them.
//! It takes no locks, so it works no statement of a read-write transaction, and none that begins one: such a job is left unworked.
#![tactic(auto)]

mod way;
mod whole;

pub use whole::WholeStatements;
