//! The tree of locks: needs of owners, the locks that cover them, and notices.
#![tactic(auto)]

mod asking;
mod closing;
mod coming_down;
mod ending;
mod holding;
mod looking;
mod notice;
mod owners;
mod parties;
mod parts;
mod places;
mod releasing;
mod sleeping;
mod steps;
mod trail;
mod tree;
mod wants;
mod way;

pub use lock_needs::{Level, Need, Node};
pub use lock_tree_laws::Want;
pub use notice::Demotion;
pub use owners::{MAX_OWNERS, is_owner};
pub use tree::Tree;
pub use vms_locks::Cycle;
