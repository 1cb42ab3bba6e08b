//! Sorted indexes over a view of the lines that their nodes stand on.
#![tactic(auto)]

mod growth;
mod insertion;
mod nodes;
mod places;
mod removal;
mod search;
mod splitting;
mod work;

pub use insertion::insert;
pub use line_view::Writes;
pub use removal::remove;
pub use search::{find, range};
pub use sorted_index_laws::{
    Bounds, Duplicate, IndexStop, pairs_are_ordered, the_way_is_in_the_index,
};
