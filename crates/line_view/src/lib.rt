//! What is known of the lines of a database, for work that stops where it lacks one.
#![tactic(auto)]

mod image_bytes;
mod known;
mod need;
mod stop;
mod view;
mod writes;

pub use known::{Known, PresentLine};
pub use need::{Need, Room};
pub use stop::{Never, Stop};
pub use view::{Seen, View};
pub use writes::{Write, Writes};
