ghost use Rattle.std.specs.Prelude.{◌≡◌, option_map};
ghost use Rattle.line_view.specs.Knowledge.{Knowledge, Shows};

use crate::Room;
use ordered_entries::Dbkey;
use std::collections::BTreeSet;

/// What a view answers of a line.
#[derive(Clone, Copy)]
pub enum Seen<'a> {
    Unknown,
    Absent,
    /// The bytes of its image.
    Present(&'a [u8]),
}

/// Some lines of a database, as far as they are known.
pub trait View {
    /// What is known.
    ghost knows: { Self → Knowledge };

    /// Whether a line is present, and its image.
    fn line(&self, key: Dbkey) -> Seen<'_>
        ensures { Shows result ((knows self.now).line key) };

    /// The present keys of a logical area, in ascending order.
    fn area(&self, area: u32) -> Option<&BTreeSet<Dbkey>>
        ensures { option_map (λ keys. keys.now.keys) result ≡ (knows self.now).area area };

    /// The line that is a room.
    fn room(&self, room: Room) -> Option<Dbkey>
        ensures { result ≡ (knows self.now).room room };
}
