use given_rooms::Rooms;
use std::alloc::Global;

/// What the statement under way of a session is allotted: the rooms that it was given, and how often its job may still be handed out. With
/// the rooms stays, from one statement of a transaction to the next, where to look on.
#[derive(Drop)]
pub struct Allotment {
    pub rooms: Rooms,
    pub rounds: u64,
}

impl Allotment {
    /// No room was given, rooms are looked for from the beginning of each area, and as many rounds are left as a number has room for.
    pub fn new(alloc: Global) -> Allotment {
        Allotment {
            rooms: Rooms::new(alloc),
            rounds: u64::MAX,
        }
    }

    /// What the next statement of the transaction is allotted: none of the rooms, and all rounds again.
    pub(crate) fn renew(&mut self, alloc: Global) {
        self.rooms.renew(alloc);
        self.rounds = u64::MAX;
    }
}
