//! Sessions that drive one shared value, in threads or in a stated order.
#![tactic(auto)]

mod bell;
mod driven;
mod order;
mod threads;

pub use driven::{Act, Driven, Gate, Point, Step};
pub use order::{MOST_SESSIONS, drive_in_order};
pub use threads::drive;
