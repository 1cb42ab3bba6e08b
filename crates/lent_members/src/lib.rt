//! Sessions whose jobs may be lent: contracts see each as if its job never were.
#![tactic(auto)]

mod lending;
mod lent_members;
mod members;

pub use answered_steps::take_answered;
pub use lending::{lend_at, take_back_at};
pub use lent_members::{Lending, LentMember, Presence, Present, Whereabouts};
pub use line_arms::{Allotment, go_on};
pub use members::{
    is_out, is_over, is_patient, is_stopping, member_at, put_member, take_member, take_present,
    takes_item,
};
