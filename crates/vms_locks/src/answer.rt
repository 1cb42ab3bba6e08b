ghost use Rattle.std.specs.Prelude.{◌≡◌};

use smallvec::SmallVec;
use std::alloc::Global;
use std::marker::Model;

/// Owners each of whom waits for the next. The first is the last. They take no memory: there are 16 owners at most.
#[derive(Debug, Drop)]
pub struct Cycle {
    owners: SmallVec<u32, 17, Global>,
}

impl Model for Cycle {
    ghost use Rattle.std.specs.Prelude.{List, ℕ};

    ghost Value = { List ℕ };

    ghost view = { λ c. c.owners.items };
}

impl Cycle {
    pub(crate) fn new(owners: SmallVec<u32, 17, Global>) -> Self
        ensures { result ≡ owners.items }
    {
        Cycle { owners }
    }

    /// The owners, in the order of the waits.
    pub fn as_slice(&self) -> &[u32]
        ensures { result.now ≡ self.now }
    {
        self.owners.as_slice()
    }
}

/// What a request is answered.
#[derive(Debug, Drop)]
pub enum Enq {
    /// The owner holds the mode.
    Granted,
    /// The request is queued.
    Asleep,
    /// The request would wait for this owner, and wasn't to wait.
    NotQueued(u32),
    /// The request would close this cycle of waits, if it were queued.
    Deadlock(Cycle),
}
