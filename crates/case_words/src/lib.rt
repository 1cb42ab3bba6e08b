//! The words of cases: numbers, Dbkeys, bytes and values as lines of cases have them.
#![tactic(auto)]

mod reading;
mod telling;

pub use reading::{image_of, key_of, number_of, row_of};
pub use telling::{put_bytes, put_key, put_text, put_values};
