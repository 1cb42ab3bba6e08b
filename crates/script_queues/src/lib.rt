//! The scripts of texts, as sessions take them.
#![tactic(auto)]

mod queues;

pub use queues::{script_of, scripts_of};
