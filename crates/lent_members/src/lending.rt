//! The job of a session's statement is lent, and what it came to is taken back. Neither changes what contracts see.
ghost use Rattle.std.specs.Prelude.{◌≡◌, ◌<◌};
ghost use Rattle.std.specs.Vec.{vec_len};

use crate::lent_members::{Lending, LentMember};
use crate::members::{is_out, member_at, put_member, take_member};
use lent_jobs::WorkedJob;
use lent_values::{Desk, Loan, Naming, Worked};
use rdb_types::{Copied, Word};
use session_jobs::{Job, Statements};
use std::alloc::Global;

/// Lends the job of the session at a place, where that is to be worked.
pub fn lend_at<O: Naming, S: Statements>(
    members: &mut Vec<LentMember<O, S>>,
    at: usize,
    desk: &mut Desk<O, Job>,
    alloc: Global,
    word: &Word,
) -> Option<Loan<O, Job>>
    requires { at < vec_len members.old }
    ensures { members.new.items ≡ members.old.items }
{
    if !is_out(member_at(members, at)) {
        return None;
    }
    let Ok(word) = word.copied(alloc) else {
        return None;
    };
    let member = take_member(members, at, alloc);
    let Lending { member, loan } = member.lend(desk, alloc, word);
    put_member(members, at, member);
    loan
}

/// Takes back what was made of the job of the session at a place, where it is of the one that is out. Else it is let go.
pub fn take_back_at<O: Naming, S: Statements>(
    members: &mut Vec<LentMember<O, S>>,
    at: usize,
    alloc: Global,
    worked: Worked<O, Job, WorkedJob<S>>,
)
    requires { at < vec_len members.old }
    ensures { members.new.items ≡ members.old.items }
{
    let member = take_member(members, at, alloc);
    put_member(members, at, member.take_back(worked));
}
