ghost use Rattle.std.specs.Prelude.{◌≡◌};
ghost use Rattle.line_view.specs.Held.{knows};
ghost use Rattle.session_jobs.specs.Jobs.{IsFoundFor, HasCause, NamesOnce};

use crate::{Answer, Found, Job, Statements};
use std::marker::Model;

/// A job, and what it came to, which is right for it; with what its executor keeps for the next.
#[derive(Drop)]
pub struct Outcome<S: Statements> {
    job: Job,
    kept: S::Kept,
    found: Found,
}

impl<S: Statements> Model for Outcome<S> {
    ghost use Rattle.session_jobs.specs.Jobs.{Answered, IsWellFound};
    ghost use Rattle.line_view.specs.Held.{knows};
    ghost use Rattle.std.specs.Coded.{codes};
    ghost use Rattle.rdo_ast.specs.contracts.syntax.Action as action_type;

    ghost Value = { Answered };

    ghost coded = { Prim.hlevel (codes, action_type.the_row.coded) };

    ghost view = { λ o. record { job = o.job; found = o.found } };

    ghost invariant = { λ o. IsWellFound S.stands S.leaves (S.fits o.kept (knows (o.job).known)) o.job o.found };
}

impl<S: Statements> Outcome<S> {
    /// Works the job.
    pub fn of(job: Job, kept: S::Kept) -> Outcome<S>
        requires { S.fits kept (knows job.known) }
        ensures { result.job ≡ job }
    {
        let Answer { job, kept, found } = S::work(job, kept);
        Outcome { job, kept, found }
    }

    /// The job, what is kept for the next, and what it came to.
    pub fn into_parts(self) -> (Job, S::Kept, Found)
        ensures job { result.0 ≡ self.job }
        ensures found { result.2 ≡ self.found }
        ensures kept { S.fits result.1 (knows (result.0).known) }
        ensures right { IsFoundFor S.stands result.0 result.2 }
        ensures cause { HasCause S.leaves result.0 result.2 }
        ensures once { NamesOnce result.2 }
    {
        (self.job, self.kept, self.found)
    }
}
