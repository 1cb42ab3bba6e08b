//! The opening of a store: what an earlier run left open is found in the before-image journals, and undone.
#![tactic(auto)]

mod closing;
mod counting;
mod fault;
mod groups;
mod headers;
mod undoing;

pub use closing::close_next;
pub use counting::count_entries;
pub use fault::OpeningFault;
pub use groups::{NextGroup, find_open};
pub use headers::{all_named, named_by};
pub use line_moves::{
    Place, aij_file, area_file, close_header, enter_page, make_stable, open_header, place_of,
    root_file, write_root,
};
pub use undoing::undo_next;
