//! What a step of a session makes of a job: what it lacked is read from the store, and what it wrote is laid there, and what the
//! session knows goes on agreeing with the lines that it sees.
#![tactic(auto)]

mod applying;
mod fetching;

pub use applying::{apply, follow};
pub use fetching::fetch;
