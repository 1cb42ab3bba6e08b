//! Backups: a header, and behind it the present lines of a database in the order of their Dbkeys, each in a slot of its own.
#![tactic(auto)]

mod header;
mod line;

pub use header::{BackupHead, one_backup, one_head, put_backup_head, read_backup_head};
pub use line::{BackupLine, NumberedLine, one_line, put_backup_line, read_backup_line};
