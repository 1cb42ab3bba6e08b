//! What happened in a run: the events, which lists of events are lawful, and what is written of them.
#![tactic(auto)]

mod event;
mod text;

pub use event::{Event, Events};
pub use text::{render, transcript};
