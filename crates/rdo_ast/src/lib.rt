//! Statements of RDO as they are written, and the replies to them.
#![tactic(auto)]

pub mod backup;
mod copied;
pub mod reply;
pub mod syntax;
