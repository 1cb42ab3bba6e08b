//! One row written over the view of a statement, with its pairs in the indexes of its relation.
#![tactic(auto)]

mod changes;
mod pairs;
mod rows;
mod stop;
mod target;

pub use pairs::add_pair;
pub use rows::{change_row, erase_row, store_row};
pub use sound_changes::{version_of, versions_of};
pub use stop::{PairRefusal, PairStop, RowRefusal, RowStop};
pub use target::TargetRelation;
