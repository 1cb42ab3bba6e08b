//! Statements in canonical words.
#![tactic(auto)]

pub mod laws;
