// Rooms that a statement was given.
ghost use Rattle.std.specs.Prelude.{◌≡◌};

use crate::lines::Lines;
use line_view::{Known, Room};
use rdb_types::{Dbkey, NoMemory};
use std::alloc::Global;

#[derive(Clone, Copy, Drop)]
struct Given {
    room: Room,
    key: Dbkey,
}

/// The rooms that a statement was given, each on a page behind the one before.
#[derive(Drop)]
pub struct Rooms {
    given: Vec<Given>,
}

// Knows the rooms that were given, and no other. False where one isn't of its area, or not on a page behind those before it.
#[tactic(auto, using(crate::proofs::RoomPages::none_yet, crate::proofs::RoomPages::one_more, crate::proofs::RoomPages::no_other))]
fn learn_rooms(known: &mut Known, given: &[Given]) -> Result<bool, NoMemory>
    ensures lines { known.new.lines ≡ known.old.lines }
    ensures areas { known.new.areas ≡ known.old.areas }
{
    known.forget_rooms();
    let mut page = 0;
    for it in given {
        if it.key.area != it.room.area {
            return Ok(false);
        }
        if it.key.page <= page {
            return Ok(false);
        }
        known.learn_room(it.room, it.key)?;
        page = it.key.page;
    }
    Ok(true)
}

impl Rooms {
    /// None was given.
    pub fn new(alloc: Global) -> Rooms {
        Rooms {
            given: Vec::new(alloc),
        }
    }

    /// None was given to the statement that begins.
    pub fn clear(&mut self) {
        self.given.clear();
    }

    /// Gives a room a line. False where its area has none.
    pub fn give(&mut self, all: &Lines, room: Room) -> Result<bool, NoMemory> {
        let behind = match self.given.as_slice().last() {
            Some(last) => last.key.page,
            None => 0,
        };
        let Some(key) = all.absent_line(room.area, behind) else {
            return Ok(false);
        };
        self.given.push(Given { room, key })?;
        Ok(true)
    }

    /// Knows the rooms that were given, and no other. False where one isn't of its area, or not on a page behind those before it.
    pub fn learn(&self, known: &mut Known) -> Result<bool, NoMemory>
        ensures lines { known.new.lines ≡ known.old.lines }
        ensures areas { known.new.areas ≡ known.old.areas }
    {
        learn_rooms(known, self.given.as_slice())
    }
}
