//! Sessions over lines: where each stands, what its stage wants, and what each step of it does to the account.
#![tactic(auto)]

mod item_queue;
mod laws;
mod locks;
mod stage;
mod turns;

pub use item_queue::{ItemQueue, WholeScript};
pub use laws::dying::the_dead_are_recovered;
pub use laws::endings::{the_store_works, transactions_end};
pub use laws::gathering::needs_are_read_in_turn;
pub use laws::outside::statements_stand_outside;
pub use laws::preparing::commits_are_prepared;
pub use laws::reading::{readers_copy, readers_end, readers_step};
pub use laws::refusing::{locks_are_refused, memory_is_wanting, starts_are_refused};
pub use laws::reserving::reservations_are_locked;
pub use laws::storing::records_are_laid_and_said;
pub use laws::together::sessions_are_kept;
pub use laws::wanting::locks_are_wanted;
pub use laws::working::{statements_are_worked, what_is_locked_is_read};
pub use locks::lock_of;
pub use stage::{
    End, Gather, Laying, Life, LockNeeds, Member, Phase, Reader, ReaderStage, ReaderWork, Stage,
    Work, Writer,
};
pub use turns::{Spoken, behind_got, come_back, speak, take_up};
