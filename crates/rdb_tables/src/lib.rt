//! Statements done on tables in memory, exactly as they mean.
#![tactic(auto)]

mod area;
mod assign;
mod definition;
mod image;
mod lines;
mod room;
mod rows;
mod run;
mod scopes;
mod statement;
mod stop;
mod store;
mod told;
mod transaction;
mod undo;
mod unique;
mod update;
mod work;

pub use statement::does;
pub use told::Told;
