//! The account of sessions over lines as it grows: what happened in a step stands behind the events before it, in room that was
//! taken for it.
#![tactic(auto)]

mod recording;

pub use recording::{
    KEPT_EVENTS, MOST_EVENTS, record, record_death, record_demotion, record_recovery, reserve_step,
};
pub use stage_steps::{Common, Happening, Recovery, Turned, die, recover, serve};
