//! Makes the files of a new database: a root, and a journal without groups.
#![tactic(auto)]

mod maker;
mod new;

pub use aij_journal::{AijPart, put_slot};
pub use maker::NewFault;
pub use new::make_new;
pub use root_file::{Root, put_root};
