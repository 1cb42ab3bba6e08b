//! Statements of sessions over lines that are refused at a limit of the store.
#![tactic(auto)]

mod refused;

pub use refused::{limits_refuse, refusals_write_nothing};
pub use session_states::{
    End, Gather, ItemQueue, Laying, Phase, Reader, ReaderStage, ReaderWork, Spoken, Stage, Work,
    Writer, behind_got, lock_of, speak,
};
