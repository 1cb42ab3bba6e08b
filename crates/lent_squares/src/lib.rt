//! Two threads square a number each outside the lock under which the numbers lie: each square is of the number that was lent.
#![tactic(auto)]

mod bench;
mod office;
mod run;
mod seat;
mod square;
#[cfg(test)]
mod tests;

pub use run::squares;
