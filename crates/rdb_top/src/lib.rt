//! The top call: a command, by its words, over a disk, scripts and an output.
#![tactic(auto)]

mod dying;
mod finishing;
mod making;
mod recovering;
mod scripts;
mod stopping;
mod top;
mod working;

pub use finishing::Finish;
pub use top::run;
