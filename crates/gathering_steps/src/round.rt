// The needs of one round of a statement's work.
ghost use Rattle.std.specs.Prelude.{◌≡◌, ◌+◌, Some, slice_get, MatchOption};

use line_view::Need;
use rdo_ast::syntax::Item;
use session_jobs::Needs;
use stage_steps::{Gather, Stage, Work};

/// A statement whose needs are read in turn: those behind the one that is wanted or read, of which those before the place are done.
#[derive(Drop)]
pub struct Round {
    pub item: Item,
    pub later: Needs,
    pub place: usize,
}

impl Round {
    /// The stage at which a need is wanted or read.
    pub fn at(self, gather: Gather) -> Stage
        ensures { result ≡ Stage.Gathering self.item gather self.later self.place }
    {
        Stage::Gathering(self.item, gather, self.later, self.place)
    }

    /// The need that comes next.
    pub fn next(&self) -> Option<Need>
        ensures { result ≡ slice_get self.now.later self.now.place }
    {
        self.later.as_slice().get(self.place).copied()
    }

    /// The stage at which the next need is wanted.
    pub fn on(self, next: Need) -> Stage
        requires { slice_get self.later self.place ≡ Some next }
        ensures { result ≡ Stage.Gathering self.item (Gather.Locking next) self.later (self.place + 1) }
    {
        // (so the place behind it is a number)
        let _count = self.later.len();
        Stage::Gathering(self.item, Gather::Locking(next), self.later, self.place + 1)
    }

    /// The stage behind a need that was read: the next one is wanted, or the job is due.
    pub fn behind(self) -> Stage
        ensures { MatchOption (slice_get self.later self.place) (result ≡ Stage.Working self.item Work.Due) (λ next. result ≡ Stage.Gathering self.item (Gather.Locking next) self.later (self.place + 1)) }
    {
        match self.next() {
            Some(next) => self.on(next),
            None => Stage::Working(self.item, Work::Due),
        }
    }
}
