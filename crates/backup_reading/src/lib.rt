//! Whether the backup on a disk is whole, in one pass over its slots.
#![tactic(auto)]

mod pages;
mod passing;
mod reading;

pub use pages::FilePage;
pub use reading::{ReadBackup, backup_file, read_backup, read_backup_line};
