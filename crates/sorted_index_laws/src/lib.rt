//! The laws of sorted indexes over plain trees: what stands in a map, what a search finds and reads, and what a change leaves.
#![tactic(auto)]

mod bounds;
mod laws;
mod stop;

pub use bounds::Bounds;
pub use index_node::{VersionedRow, read_row};
pub use laws::{pairs_are_ordered, the_way_is_in_the_index};
pub use line_view::{Need, Never, Seen, Stop, View};
pub use stop::{Duplicate, IndexStop};
