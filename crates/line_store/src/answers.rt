// What calls of a store answer.
ghost use Rattle.std.specs.Prelude.{◌≡◌};

use rdb_outside::{Dbkey, Failed, FileId, Moment};

/// A device call failed, or the slot of this number isn't what it has to be. A store tells a slot only where it has used up its numbers, and that of its root then.
#[derive(Clone, Copy, Debug, PartialEq, Eq)]
pub enum Fault {
    Failed,
    Bad(FileId, u32),
}

impl From<Failed> for Fault {
    ghost use Rattle.line_store.specs.declared.answers.Fault.TheVariants as faults;

    ghost from_gives = { λ _ e. e ≡ faults.Failed };

    fn from(_: Failed) -> Self {
        Fault::Failed
    }
}

/// Whether a call is through. Where there is more to do it is made again.
#[derive(Clone, Copy, Debug, PartialEq, Eq)]
pub enum Progress {
    Done,
    More,
}

/// Why lines can't be read.
#[derive(Clone, Copy, Debug, PartialEq, Eq)]
pub enum ReadStop {
    NoMemory,
    Fault(Fault),
}

/// Why lines can't be changed.
#[derive(Clone, Copy, Debug, PartialEq, Eq)]
pub enum ChangeStop {
    /// The session's undo journal has no room within this limit.
    RujFull(u32),
    /// The snapshot files have no room within this limit.
    SnapFull(u32),
    /// This line stands on no page of its logical area and of that area's class, its image is too long for the page, or another open transaction has written it.
    Unfit(Dbkey),
    NoMemory,
}

/// Why a commit can't be prepared.
#[derive(Clone, Copy, Debug, PartialEq, Eq)]
pub enum CommitStop {
    /// The after-image journal has no room within this limit.
    AijFull(u32),
    NoMemory,
}

/// What a step of a session came to.
#[derive(Clone, Copy, Debug, PartialEq, Eq)]
pub enum Stepped {
    /// There is more to do.
    More,
    Done,
    /// The writes are committed, and stable since this moment.
    Committed(Moment),
    /// The dead session's transaction is undone, or its commit stands.
    Recovered { is_committed: bool, moment: Moment },
}
