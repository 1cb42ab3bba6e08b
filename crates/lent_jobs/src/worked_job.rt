ghost use Rattle.std.specs.Prelude.{◌≡◌};
ghost use Rattle.session_jobs.specs.Jobs.{IsFoundFor};

use crate::remembering::{Remembering, Remembers};
use lent_values::{Answer, Maker};
use session_jobs::{Answer as Answered, Found, Job, Outcome, Statements};
use std::marker::{Model, PhantomData};

/// A job, and what it came to, which is right for it. What its executor keeps from job to job is let go.
#[derive(Drop)]
pub struct WorkedJob<S: Statements> {
    job: Job,
    found: Found,
    of: PhantomData<S>,
}

impl<S: Statements> Model for WorkedJob<S> {
    ghost use Rattle.session_jobs.specs.Jobs.{Answered, IsFoundFor};
    ghost use Rattle.std.specs.Coded.{codes};
    ghost use Rattle.rdo_ast.specs.contracts.syntax.Action as action_type;

    ghost Value = { Answered };

    ghost coded = { Prim.hlevel (codes, action_type.the_row.coded) };

    ghost view = { λ w. record { job = w.job; found = w.found } };

    ghost invariant = { λ w. IsFoundFor S.stands w.job w.found };
}

impl<S: Statements> WorkedJob<S> {
    /// The job.
    pub fn job(&self) -> &Job
        ensures { result.now ≡ self.now.job }
    {
        &self.job
    }

    /// The job, and what it came to.
    pub fn into_parts(self) -> (Job, Found)
        ensures job { result.0 ≡ self.job }
        ensures found { result.1 ≡ self.found }
        ensures right { IsFoundFor S.stands result.0 result.1 }
    {
        (self.job, self.found)
    }
}

impl<S: Statements> Answer<Job> for WorkedJob<S> {
    ghost asked = { λ w. w.job };

    fn of(job: Job) -> WorkedJob<S> {
        let (job, _, found) = Outcome::<S>::of(job, S::nothing()).into_parts();
        WorkedJob {
            job,
            found,
            of: PhantomData,
        }
    }
}

impl<S: Remembers> Maker<Job, WorkedJob<S>> for Remembering<S> {
    fn make(&mut self, job: Job) -> WorkedJob<S> {
        let Answered {
            job,
            kept: (),
            found,
        } = S::work_again(job, &mut self.memory);
        WorkedJob {
            job,
            found,
            of: PhantomData,
        }
    }
}
