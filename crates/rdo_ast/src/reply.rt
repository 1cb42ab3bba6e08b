use crate::syntax::Reservations;
use rdb_types::{Chars, Items, PrintedRows};

/// Which transaction a session has open.
#[derive(Drop)]
pub enum Standing {
    Closed,
    ReadOnly,
    ReadWrite {
        /// Whether it waits for locks.
        wait: bool,
        /// Empty without RESERVING.
        reserved: Reservations,
    },
}

/// The answer to an item of a script.
#[derive(Drop)]
pub enum Reply {
    Done(PrintedRows),
    Syntax { line: u32, column: u32 },
    NoSuch(Chars),
    Exists(Chars),
    TypeClash,
    Overflow,
    Duplicate(Chars),
    NoTransaction,
    InTransaction,
    ReadOnly,
    NotReserved(Chars),
    LockConflict(u32),
    Deadlock(Items<u32>),
    AreaFull(u32),
    RujFull(u32),
    AijFull(u32),
    SnapFull(u32),
    TooLong,
    NoMemory,
}
