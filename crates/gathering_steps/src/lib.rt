//! All that a job of a statement named is locked and read in turn, before the job is due again.
#![tactic(auto)]

mod fetching;
mod round;

pub use fetching::{fetch_gathered, gather};
pub use round::Round;
pub use stage_steps::{
    Common, End, Gather, Happening, ItemQueue, Laying, Phase, Reader, ReaderRound, ReaderStage,
    ReaderTerms, ReaderWork, Stage, Terms, Turned, Work, Writer, change, commit, compute_reading,
    failed, fetch_locked, fetch_reading, forgo, forgo_reading, go_away, go_on_copying, hand_out,
    hand_out_reading, land, lay, leave, leave_reading, lock_of, open, prepare, put_away, quiet,
    refuse_at_limit, roll_back, start, take_found_reading, take_up, take_up_reading, want,
    want_journal,
};
