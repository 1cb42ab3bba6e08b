//! Steps of sessions over lines: what is always true of all sessions, their account and the committed lines, and a law for each kind
//! of event.
#![tactic(auto)]

mod deaths;
mod images;
mod readers;
mod sessions;
mod writers;

pub use deaths::the_dead_are_recovered;
pub use images::{crashes_leave_commits, one_commit_is_in_flight};
pub use line_history::{Found, Needs, Statements, TxRecord};
pub use readers::{readers_step, statements_stand_outside};
pub use sessions::sessions_go_on;
pub use writers::{
    transactions_end, writers_are_answered, writers_begin_and_learn, writers_get_what_they_ask_for,
};
