use line_opening::NextGroup;
use root_file::Root;

/// Where the opening of a database is, behind its first barrier. Each step makes one write or one barrier at most.
#[derive(Clone, Copy, Debug, PartialEq, Eq)]
pub enum OpeningStage {
    /// So many entries of this member's open transaction are still to be undone.
    Undoing { member: u32, entries: u32 },
    /// What was put back is to be made stable.
    Restoring,
    /// The headers of the members from this one on are to be closed, where they name a transaction.
    Closing { member: u32 },
    /// The closed headers are to be made stable.
    Ending,
    Opened,
}

/// What an opening read: the root; of each member, the first one's in place 0, the number of its open transaction, 0 being none, and how many entries that has; and where the next group of the after-image journal is written.
#[derive(Clone, Copy)]
pub struct Found {
    pub root: Root,
    pub numbers: [u64; 16],
    pub counts: [u32; 16],
    pub next: NextGroup,
}

/// An opening on its way.
#[derive(Clone, Copy)]
pub struct Opening {
    pub stage: OpeningStage,
    pub found: Found,
}
