//! That the verification of a database that this engine left, with sound lines, lists nothing: kind by kind, and of the whole.
#![tactic(auto)]

mod laws;

pub use laws::{
    a_sound_database_has_no_fault, no_catalog_line_is_at_fault, no_index_differs,
    no_node_is_at_fault, no_owner_differs, no_page_fails, no_row_is_at_fault,
    sound_lines_have_no_fault,
};
pub use rmu_verify::verify;
