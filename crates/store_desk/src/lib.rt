//! Calls of any store of lines, made only where they are allowed, and the words by which cases make them.
#![tactic(auto)]

mod answer;
mod desk;
mod place;
mod words;

pub use answer::Answer;
pub use desk::Desk;
pub use place::Place;
pub use words::say;
