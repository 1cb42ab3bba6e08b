//! The pages that are used of a database at rest, in the order of their logical areas.
#![tactic(auto)]

mod pages;

pub use pages::{AreaPage, UsedPages, used_pages};
