//! The backups that sessions of a store on a disk copy, beside what others do: how they begin, their steps, and what the store shows with them.
#![tactic(auto)]

mod beginning;
mod copies;
mod former;
mod next;
mod steps;

pub use beginning::begin_copy;
pub use copies::Copies;
pub use former::FormerDisk;
pub use next::next_line_in;
pub use steps::copy_step;
