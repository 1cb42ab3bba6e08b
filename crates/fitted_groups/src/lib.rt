//! Groups of journals looked at before they are laid: whether each of their lines fits the page that it meets. Nothing is written.
#![tactic(auto)]

mod claims;
mod journals;
mod lines;

pub use claims::{PageClaim, page_claims};
pub use journals::{Fitted, fit_journal};
pub use laid_groups::{Reached, lay_journal, pass_journal};
