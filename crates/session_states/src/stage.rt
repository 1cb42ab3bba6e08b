use crate::item_queue::ItemQueue;
use line_steps::{Needs, TxRecord};
use line_view::{Known, Need, Room};
use lock_needs::Need as LockNeed;
use rdb_types::{Dbkey, Items};
use rdo_ast::reply::Standing;
use rdo_ast::syntax::Item;

/// How the job of a statement goes on.
#[derive(Clone, Copy)]
pub enum Work {
    /// The store opens the transaction that the statement begins.
    Opening,
    /// The job is to be handed out.
    Due,
    /// The job is handed out.
    Out,
    /// The lock on what the job lacked is wanted. A room has none before a line is named for it.
    Lacking(Need),
    /// The lock on this line is wanted, for a room that the job lacked.
    Housing(Room, Dbkey),
    /// What the job lacked is locked, and is read.
    Fetching(Need),
    /// The line that was named for a room is locked; it is read, and its page is taken.
    Lodging(Room, Dbkey),
}

/// How far a need of a job has come, of those that are read in turn.
#[derive(Clone, Copy)]
pub enum Gather {
    /// The lock on it is wanted. A room has none before a line is named for it.
    Locking(Need),
    /// The lock on this line is wanted, for a room.
    Housing(Room, Dbkey),
    /// It is locked, and is read.
    Reading(Need),
    /// The line that was named for a room is locked; it is read, and its page is taken.
    Lodging(Room, Dbkey),
}

/// What is done before the record of a statement is said.
#[derive(Clone, Copy)]
pub enum Laying {
    /// The lock on the line of the write at this place is wanted.
    Claiming(usize),
    /// The store lays the writes.
    Changing,
    /// A step of the store failed in it: the session can only die.
    Broken,
}

/// How a read-write transaction ends.
#[derive(Clone, Copy)]
pub enum End {
    /// Room and memory of a COMMIT are to be taken, for which it may be refused. It wants no lock yet.
    Preparing,
    /// The COMMIT has them, and wants the journal.
    Journal,
    /// It has got the journal.
    Ready,
    /// The store commits.
    Committing,
    /// The store undoes, for a ROLLBACK.
    RollingBack,
    /// The store undoes, at the end of the script.
    Leaving,
}

/// Needs of the tree of locks.
pub type LockNeeds = Items<LockNeed>;

/// How far a read-write transaction has come.
#[derive(Drop)]
pub enum Stage {
    /// The next item is taken up.
    Between,
    /// A statement is worked.
    Working(Item, Work),
    /// All that a statement's job named is locked and read in turn, before it is due again: this need, and then those from this place on.
    Gathering(Item, Gather, Needs, usize),
    /// A START_TRANSACTION was worked. What it reserves is locked in turn: the lock at this place is wanted.
    Reserving(Item, TxRecord, LockNeeds, usize),
    /// A statement was worked, and is said once its writes are laid.
    Saying(Item, TxRecord, Laying),
    Ending(End),
}

/// A read-write transaction.
#[derive(Drop)]
pub struct Writer {
    pub standing: Standing,
    pub known: Known,
    /// Something was said in it.
    pub spoken: bool,
    /// It waits for locks. For the journal it waits in any case.
    pub waits: bool,
    pub stage: Stage,
}

/// How the job of a reader's statement goes on.
#[derive(Clone, Copy)]
pub enum ReaderWork {
    /// The job is to be handed out.
    Due,
    /// The job is handed out.
    Out,
    /// It is worked by no job: the store copies the lines into the backup that the statement names. Nothing is known or said yet.
    Copying,
}

/// How far a read-only transaction has come.
#[derive(Drop)]
pub enum ReaderStage {
    /// The next item is taken up.
    Between,
    /// A statement is worked.
    Working(Item, ReaderWork),
    /// All that a statement's job named is read in turn, before it is due again: this need, and then those from this place on.
    Gathering(Item, Need, Needs, usize),
}

/// A read-only transaction. It wants no lock.
#[derive(Drop)]
pub struct Reader {
    pub standing: Standing,
    pub known: Known,
    /// Something was said in it.
    pub spoken: bool,
    pub stage: ReaderStage,
}

#[derive(Drop)]
pub enum Phase {
    Outside,
    /// No transaction is open any more, and the store puts away what it left.
    Closing,
    Writing(Writer),
    Reading(Reader),
    /// The script was said to its end in a transaction.
    Over,
}

/// Whether a session lives.
#[derive(Clone, Copy)]
pub enum Life {
    Alive,
    /// It died where it stands, and awaits its recovery. Its locks are held still.
    Dead,
    /// It died and was recovered.
    Gone,
}

/// A session.
#[derive(Drop)]
pub struct Member {
    /// What it hasn't said yet, but for its statement under way.
    pub left: ItemQueue,
    /// How many items its script has.
    pub total: u32,
    pub phase: Phase,
    pub life: Life,
}
