//! Sessions over any store of lines, made to go in a stated order, and what is told of them: for programs of cases.
#![tactic(auto)]

mod driving;
mod events;
mod retelling;
mod scripts;
mod world;

pub use driving::{Drive, FIRST, SESSIONS, Scripts, run, session_of};
pub use scripts::script_of;
