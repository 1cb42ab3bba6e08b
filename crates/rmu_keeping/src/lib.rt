//! The commands of RMU that keep copies of a database: its backup, the copy of its after-image journal, the database made anew from a backup, and rolled forward.
#![tactic(auto)]

mod backing;
mod copying;
mod opening;
mod recovering;
mod restoring;
mod statuses;

pub use backing::backup_command;
pub use copying::journal_command;
pub use recovering::recover_command;
pub use restoring::restore_command;
