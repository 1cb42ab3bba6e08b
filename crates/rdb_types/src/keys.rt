use crate::{Image, Items};

/// The name of a line: its logical area, the page in that area's file, and the line on the page. Keys are ordered as that triple.
#[derive(Clone, Copy, Debug, PartialEq, Eq, PartialOrd, Ord)]
pub struct Dbkey {
    pub area: u32,
    pub page: u32,
    pub line: u16,
}

/// Names of lines.
pub type Keys = Items<Dbkey>;

/// A transaction sequence number.
#[derive(Clone, Copy, Debug, PartialEq, Eq, PartialOrd, Ord)]
pub struct Tsn {
    pub number: u64,
}

/// How far the files of a database may grow: pages of an area, entries of a snapshot file, entries of a recovery-unit journal, slots of the after-image journal.
#[derive(Clone, Copy, Debug, PartialEq, Eq)]
pub struct Limits {
    pub pages: u32,
    pub snaps: u32,
    pub entries: u32,
    pub slots: u32,
}

/// Whether a line was ever there, and is.
#[derive(Clone, Copy, Debug, PartialEq, Eq)]
pub enum LineState {
    Never,
    Present,
    Erased,
}

/// A line of a page, with the transaction that made it so and the place of its version before.
#[derive(Drop)]
pub struct Line {
    pub state: LineState,
    pub tsn: Tsn,
    pub chain: u32,
    pub image: Image,
}
