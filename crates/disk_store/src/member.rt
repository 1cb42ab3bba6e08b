// What is kept in memory of a session.
use member_memory::MemberLines;
use member_rooms::CommitTurn;
use rdb_types::Tsn;
use reader_lines::Wanted;
use version_reading::Reader;

/// What is left of the recovery of a session that died.
#[derive(Clone, Copy, Debug, PartialEq, Eq)]
pub enum Recovery {
    /// Nothing of its transaction stands on a page. Its header is to be closed.
    Ending,
    /// Its group may be committed: a barrier tells.
    Judging,
    /// So many of its before-images are to be put back.
    Undoing { left: u32 },
    /// What was put back is to be made stable.
    Restoring,
}

/// How far a beginning is.
#[derive(Clone, Copy, Debug, PartialEq, Eq)]
pub enum Ceiling {
    /// It asks for a number below the ceiling.
    Asking,
    /// A root with a higher ceiling was written for it. A barrier makes that stable, and till then a number is kept free.
    Raised,
}

/// Where a session's transaction is.
#[derive(Clone, Copy, Debug, PartialEq, Eq)]
pub enum MemberStage {
    Outside,
    Beginning(Ceiling),
    Writing,
    /// Before-images of lines of the last statement are to be written, or lines to be pushed aside.
    Changing,
    /// A step of a change failed, and a before-image may stand or not: the transaction can only die.
    Broken,
    Prepared,
    Committing(CommitTurn),
    /// Its header is to be closed.
    RollingBack,
    Closing,
    Reading,
    /// It died. Whether its commit was under way.
    Dead { commits: bool, recovery: Recovery },
}

/// A session as the store has it: where it is, the number of its read-write transaction, whether its header was found or made to name that since the last statement, the lines that this wrote, how many of them have a before-image, how many were pushed aside where they had to be, or given up, and the slots that are set aside for the others; what a reader keeps from its start, which says nothing at another stage; and, where a commit is prepared, the class of each line's page.
#[derive(Drop)]
pub struct Member {
    pub stage: MemberStage,
    pub tsn: Tsn,
    pub named: bool,
    pub written: MemberLines,
    pub journalled: u32,
    pub pushed: u32,
    pub aside: Wanted,
    pub reader: Reader,
    pub classes: Vec<u16>,
}
