//! The after-image journal begun anew, and a restored database taken into use.
#![tactic(auto)]

mod anew;
mod using;

pub use anew::begin_anew;
pub use using::take_into_use;
