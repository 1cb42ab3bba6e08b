//! The after-image journal copied and emptied.
#![tactic(auto)]

mod copying;
mod emptying;

pub use emptying::back_up_journal;
