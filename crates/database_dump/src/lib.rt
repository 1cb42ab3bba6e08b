//! The dump of a database that nobody has open.
#![tactic(auto)]

mod counts;
mod definitions;
mod whole;

pub use whole::dump;
