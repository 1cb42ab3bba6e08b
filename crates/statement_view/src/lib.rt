//! The view of a statement: the lines that it has written, over what is known.
#![tactic(auto)]

mod changed;

pub use changed::Changed;
