//! Expressions, conditions, selections and actions of RDO, read from tokens.
#![tactic(auto)]

pub mod action;
pub mod expr;
pub mod nested;
pub mod range;
pub mod selection;
