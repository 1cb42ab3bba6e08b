use ordered_entries::Dbkey;

/// The nth line, from 0, that may be taken for a new row of a logical area on pages of a class.
#[derive(Clone, Copy, Debug, PartialEq, Eq, PartialOrd, Ord)]
pub struct Room {
    pub area: u32,
    pub class: u16,
    pub nth: u32,
}

/// What work over a view reads.
#[derive(Clone, Copy, Debug, PartialEq, Eq)]
pub enum Need {
    Line(Dbkey),
    /// All present lines of a logical area.
    Area(u32),
    Room(Room),
}
