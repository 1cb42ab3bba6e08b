//! How transactions of a store on a disk end: a rollback, a death, what its recovery puts back, and the closing of its header, behind which slots of the snapshot files are given back.
#![tactic(auto)]

mod dying;
mod endings;
mod reading;
mod restoring;
mod rolling;
mod undoing;

pub use disk_store::{Held, MemberStage, Recovery};
pub use dying::die;
pub use endings::{bury, put_away};
pub use reading::end_reading;
pub use restoring::restore;
pub use rolling::roll_back;
pub use undoing::put_back;
