//! Which nodes of an index a search will lack: all that the known ones tell of, at once.
#![tactic(auto)]

mod ahead;

pub use ahead::add_unknown;
pub use node_search::Wanted;
