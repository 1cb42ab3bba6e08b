//! STORE, FOR, PRINT, MODIFY and ERASE, done over the lines that a statement knows.
#![tactic(auto)]

mod acting;
mod ahead;
mod assigning;
mod behind;
mod looking;
mod printing;
mod running;
mod scope;
mod stop;
mod storing;
mod updating;
mod work;

pub use acting::{Acted, Ended, Outcome, act};
pub use selection_areas::sources;
pub use stop::Refusal;
pub use work::Given;
