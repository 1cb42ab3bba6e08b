//! Changes that nothing refuses before their work: they have a reply with some Dbkeys, and who works statements tells of them.
#![tactic(auto)]

mod checks;
mod laws;
mod reaches;

pub use checks::is_reached_in;
pub use laws::changes_are_reached;
pub use reaches::Reaches;
