//! The transactions of all members on one disk: each call is one of a member, and says what it makes of the ledger of all.
#![tactic(auto)]

mod barriers;
mod commit;
mod deaths;
mod entering;
mod headers;
mod journalling;
mod laws;
mod roots;
mod undoing;

pub use barriers::settle;
pub use commit::go_on;
pub use deaths::{a_commit_is_given_up, a_commit_is_judged, a_member_is_undone};
pub use entering::enter;
pub use headers::{close, name_header};
pub use journalling::journal;
pub use laws::{
    a_commit_begins, a_commit_of_nothing, a_ledger_begins, a_member_begins, a_member_ends,
    pages_are_entered,
};
pub use line_opening::{Place, aij_file, make_stable, named_by, place_of, root_file, write_root};
pub use line_seat::{CommitStage, GroupPlace};
pub use roots::raise_ceiling;
pub use undoing::undo;
