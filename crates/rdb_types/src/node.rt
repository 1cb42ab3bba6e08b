/// What a lock is on.
#[derive(Clone, Copy, Debug, PartialEq, Eq, Hash)]
pub enum Level {
    Area,
    Range,
    Page,
    Line,
    Journal,
}

/// A resource of the lock tree: a logical area, one of its ranges or pages (`at` is its number), a line of a page, or the after-image journal.
#[derive(Clone, Copy, Debug, PartialEq, Eq, Hash)]
pub struct Node {
    pub level: Level,
    pub area: u32,
    pub at: u32,
    pub line: u16,
}
