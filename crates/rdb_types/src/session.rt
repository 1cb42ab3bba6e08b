/// A moment of a disk. Later calls have later moments.
#[derive(Clone, Copy, Debug, PartialEq, Eq, PartialOrd, Ord)]
pub struct Moment {
    pub number: u64,
}

/// A session of a run, numbered from 1 to 16.
#[derive(Clone, Copy, Debug, PartialEq, Eq)]
pub struct Session {
    pub number: u32,
}

/// Why a session died.
#[derive(Clone, Copy, Debug, PartialEq, Eq)]
pub enum Cause {
    Device,
    Gate,
    Stop,
    Memory,
}
