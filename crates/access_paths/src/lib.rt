//! How the rows of a relation that a condition may choose are come by: by a scan of its logical area, or by an index.
#![tactic(auto)]

mod before;
mod choice;
mod equated;
mod laws;
mod limits;
mod nearest;

pub use choice::{Access, IndexPath, choose};
pub use laws::no_row_is_lost;
