//! The image of a row of a relation, and the key of a row in an index.
#![tactic(auto)]

mod fitting;
mod images;
mod keys;

pub use images::{Unstored, row_image};
pub use keys::{have_one_key, is_key, key_of};
