// The needs of one round of a reader's statement.
ghost use Rattle.std.specs.Prelude.{◌≡◌, ◌+◌, Some, slice_get, MatchOption};

use line_view::Need;
use rdo_ast::syntax::Item;
use session_jobs::Needs;
use session_limits::{ReaderStage, ReaderWork};

/// A reader's statement whose needs are read in turn: those behind the one that is read, of which those before the place are done.
#[derive(Drop)]
pub struct ReaderRound {
    pub item: Item,
    pub later: Needs,
    pub place: usize,
}

impl ReaderRound {
    /// The stage at which a need is read.
    pub fn at(self, need: Need) -> ReaderStage
        ensures { result ≡ ReaderStage.Gathering self.item need self.later self.place }
    {
        ReaderStage::Gathering(self.item, need, self.later, self.place)
    }

    /// The need that comes next.
    pub fn next(&self) -> Option<Need>
        ensures { result ≡ slice_get self.now.later self.now.place }
    {
        self.later.as_slice().get(self.place).copied()
    }

    /// The stage at which the next need is read.
    pub fn on(self, next: Need) -> ReaderStage
        requires { slice_get self.later self.place ≡ Some next }
        ensures { result ≡ ReaderStage.Gathering self.item next self.later (self.place + 1) }
    {
        // (so the place behind it is a number)
        let _count = self.later.len();
        ReaderStage::Gathering(self.item, next, self.later, self.place + 1)
    }

    /// The stage behind a need that was read or passed over: the next one is read, or the job is due.
    pub fn behind(self) -> ReaderStage
        ensures { MatchOption (slice_get self.later self.place) (result ≡ ReaderStage.Working self.item ReaderWork.Due) (λ next. result ≡ ReaderStage.Gathering self.item next self.later (self.place + 1)) }
    {
        match self.next() {
            Some(next) => self.on(next),
            None => ReaderStage::Working(self.item, ReaderWork::Due),
        }
    }
}
