ghost use Rattle.std.specs.Prelude.{◌≡◌};

use session_jobs::{Answer, Job, Statements};

/// Who works statements, and remembers of one what helps with the next, whosever it is.
pub trait Remembers: Statements {
    ghost use Rattle.std.specs.Prelude.{◌≡◌};
    ghost use Rattle.session_jobs.specs.Jobs.{IsFoundFor};

    /// What is remembered.
    type Memory: Drop;

    /// Nothing is remembered yet.
    fn nothing_yet() -> Self::Memory;

    /// What the job comes to. It reads nothing but the job, and what it remembers makes no difference to what is promised.
    fn work_again(job: Job, memory: &mut Self::Memory) -> Answer<()>
        ensures job { result.job ≡ job }
        ensures right { IsFoundFor Self.stands job result.found };
}

/// Works jobs one behind another, by what it remembers of those before.
#[derive(Drop)]
pub struct Remembering<S: Remembers> {
    pub(crate) memory: S::Memory,
}

impl<S: Remembers> Remembering<S> {
    pub fn new() -> Remembering<S> {
        Remembering {
            memory: S::nothing_yet(),
        }
    }
}
