ghost use Rattle.std.specs.Prelude.{◌≡◌, ◌+◌, ◌≤◌, ◌++◌, [], length, OnOk, IsOk};
ghost use Rattle.vms_queues.specs.Queues.{blockers};

use crate::held::{Held, add_blockers};
use crate::lock_mode::Mode;
use smallvec::SmallVec;
use std::alloc::{AllocError, Global};
use std::marker::Model;

/// Owners that stand in the way of a request, in the order of the queues. Up to 32 of them take no memory: 16 that hold or
/// wait, and 16 that convert.
#[derive(Drop)]
pub struct Blockers {
    owners: SmallVec<u32, 32, Global>,
}

impl Model for Blockers {
    ghost use Rattle.std.specs.Prelude.{List, ℕ};

    ghost Value = { List ℕ };

    ghost view = { λ b. b.owners.items };
}

impl Blockers {
    pub fn new(alloc: Global) -> Self
        ensures { result ≡ [] }
    {
        Blockers {
            owners: SmallVec::new(alloc),
        }
    }

    pub fn as_slice(&self) -> &[u32]
        ensures { result.now ≡ self.now }
    {
        self.owners.as_slice()
    }

    // Adds the owners of those among the entries that stand in the way.
    pub(crate) fn add(&mut self, entries: &[Held], owner: u32, mode: Mode) -> Result<(), AllocError>
        ensures ok { OnOk result (self.new ≡ self.old ++ blockers owner mode entries.now) }
        ensures len { OnOk result (length self.new ≤ length self.old + length entries.now) }
        ensures succeeds { length self.old + length entries.now ≤ 32 → IsOk result }
    {
        add_blockers(&mut self.owners, entries, owner, mode)
    }
}

/// What a request is answered: it is granted, or it waits behind these owners.
#[derive(Drop)]
pub enum Answer {
    Granted,
    Queued(Blockers),
}
