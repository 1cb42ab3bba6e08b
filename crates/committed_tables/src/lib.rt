//! Laws alone: the table of pages that a store keeps has the committed lines, if a line is put into it when its commit is answered, and a page when it is taken.
#![tactic(auto)]

mod laws;

pub use laws::{
    a_table_begins, a_table_follows_commits, a_table_keeps_used_lines, rooms_are_free,
    used_lines_are_committed, used_lines_are_passed,
};
pub use page_table::{PageTable, Sought};
