//! What DUMP reads of a database: its root, how many groups its journal has, and a page of an area file.
#![tactic(auto)]

mod files;
mod page;

pub use files::{count_groups, root_of};
pub use page::dump_page;
