//! The device calls of the store of lines: each makes one write or one barrier at most, and says what it keeps of the facts on pending contents.
#![tactic(auto)]

mod barriers;
mod entries;
mod filling;
mod headers;
mod images;
mod laws;
mod lines;
mod pages;
mod places;
mod spaces;
mod undoing;

pub use barriers::make_stable;
pub use entries::write_before_image;
pub use filling::write_page;
pub use headers::{close_header, open_header};
pub use images::{write_after_image, write_commit, write_root};
pub use laws::{a_commit_stands, images_at_every_moment};
pub use line_store::Fault;
pub use lines::line_at;
pub use pages::{NoPlace, change_line, put_on};
pub use places::{Place, aij_file, area_file, place_of, root_file, ruj_file};
pub use spaces::enter_page;
pub use stable_lines::{open_tsn, read_entry};
pub use undoing::{Undone, undo_line};
