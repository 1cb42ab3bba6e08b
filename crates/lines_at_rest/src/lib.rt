//! The lines of a logical area of a database at rest, as they were before the transactions that are open.
#![tactic(auto)]

mod area;
mod lines;
mod page;
mod reading;
mod view;

pub use area::read_area;
pub use lines::{AreaLines, LineBytes};
pub use reading::{FaultyPages, RestReading};
pub use view::AreaView;
