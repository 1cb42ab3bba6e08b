// The law of each step of a stage: its events in the account, and that the stage that it comes to fits.
pub mod dying;
pub mod endings;
pub mod gathering;
pub mod outside;
pub mod preparing;
pub mod reading;
pub mod refusing;
pub mod reserving;
pub mod storing;
pub mod together;
pub mod wanting;
pub mod working;
