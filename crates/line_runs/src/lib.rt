//! Scripts said over a database on a disk: it is opened, its sessions are driven to their ends, and the disk is given back.
#![tactic(auto)]

mod laws;
mod runs;

pub use disk_line_store::FormerDisk;
pub use laws::{a_run_leaves_what_opens, a_run_opens};
pub use line_drive::{Halt, Origin};
pub use opened_store::a_new_database_opens;
pub use rdo_reserving::ReservingStatements;
pub use runs::{LineRun, Said, say_in_order, say_in_threads};
