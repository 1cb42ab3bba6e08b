//! What bound selections select, over a view of the lines that the rows stand on.
#![tactic(auto)]

mod asking;
mod crossing;
mod judging;
mod laws;
mod putting;
mod reducing;
mod selection;
mod settling;
mod sorting;
mod source;
mod sources;
mod stop;
mod tuples;

pub use crossing::{Found, FoundTuples};
pub use laws::a_join_asks_the_index_for_each_row;
pub use selection::select;
pub use settling::{holds_in, matching, selected, value_in};
pub use source::{Source, Sources};
pub use stop::{Overflow, SelectStop};
