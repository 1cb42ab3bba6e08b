//! The steps of a session over lines, a function a stage: each calls the store, the tree of locks and who works statements, and its contract is
//! the step that the laws of sessions have of it.
#![tactic(auto)]

mod asks;
mod begun;
mod calling;
mod common;
mod copying;
mod dying;
mod ending;
mod fetching;
mod happening;
mod items;
mod journal;
mod limits;
mod outside;
mod reader_round;
mod reading;
mod saying;
mod serving;
mod storing;
mod terms;
mod wanting;
mod working;

pub use asks::Asks;
pub use common::Common;
pub use copying::go_on_copying;
pub use dying::{Recovery, die, recover};
pub use ending::{commit, go_away, land, leave, prepare, roll_back};
pub use fetching::fetch_locked;
pub use happening::{Answer, Asking, Happening, Turned, failed, quiet};
pub use items::refused;
pub use journal::want_journal;
pub use limits::refuse_at_limit;
pub use outside::{put_away, start};
pub use reader_round::ReaderRound;
pub use reading::{
    compute_reading, fetch_reading, forgo_reading, hand_out_reading, leave_reading,
    take_found_reading, take_up_reading,
};
pub use saying::{change, lay};
pub use serving::serve;
pub use session_limits::{
    End, Gather, ItemQueue, Laying, Phase, Reader, ReaderStage, ReaderWork, Stage, Work, Writer,
    lock_of,
};
pub use storing::work_on;
pub use terms::{ReaderTerms, Terms};
pub use wanting::want;
pub use working::{forgo, hand_out, open, take_up};
