//! Statements worked over what a session knows of the lines, and over nothing else.
#![tactic(auto)]

mod acting;
mod bare;
mod defining;
#[tactic(auto, using(crate::proofs::NamedRelations::names_append, crate::proofs::NamedRelations::ranges_name))]
mod naming;
mod plain;
mod plainness;
mod records;
mod schema;
mod standing;
mod statements;
mod way;

pub use statements::RdoStatements;
pub use way::is_viewed;
