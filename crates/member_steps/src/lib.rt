//! What a member's transaction does on the disk, step by step: before-images, the commit from the owners of its pages on, and whether a commit stands.
#![tactic(auto)]

mod beginning;
mod committing;
mod journalling;
mod judging;
mod laws;
mod reading;

pub use beginning::{NUMBERS, begin_members};
pub use committing::{CommitTurn, commit_next};
pub use journalling::{Journalled, journal_next};
pub use judging::has_commit;
pub use laws::{a_ceiling_is_stable, a_ceiling_stays, pages_for_areas};
pub use reading::{lines_that_stand, what_a_crash_leaves};
