// The lines that are known, and the rooms of an index that grows.
ghost use Rattle.std.specs.Prelude.{slice_get};
ghost use Rattle.line_view.specs.Held.{knows as knows_of};

use line_view::{Known, Room, Seen, View, Writes};
use rdb_types::{Dbkey, Image, NoMemory};
use std::alloc::Global;
use std::collections::BTreeSet;

/// What is known, the lines that are given as rooms beside it, and the first page that was never used.
pub struct World {
    pub known: Known,
    pub rooms: Vec<Dbkey>,
    pub next_page: u32,
    /// How many nodes of the index went.
    pub gone: u32,
}

// By hand, so that it is one call wherever it is let go.
impl Drop for World {
    fn drop(self) {
        let World {
            known: _known,
            rooms: _rooms,
            next_page: _,
            gone: _,
        } = self;
    }
}

impl View for World {
    ghost knows = { λ w. record { line = (knows_of w.known).line; area = (knows_of w.known).area; room = λ room. slice_get w.rooms.items room.nth } };

    fn line(&self, key: Dbkey) -> Seen<'_> {
        self.known.line(key)
    }

    fn area(&self, area: u32) -> Option<&BTreeSet<Dbkey>> {
        self.known.area(area)
    }

    fn room(&self, room: Room) -> Option<Dbkey> {
        self.rooms.get(room.nth as usize).copied()
    }
}

impl World {
    pub fn new(alloc: Global) -> World {
        World {
            known: Known::new(alloc),
            rooms: Vec::new(alloc),
            next_page: 3,
            gone: 0,
        }
    }

    /// Lays writes over the lines.
    pub fn lay(&mut self, alloc: Global, writes: &Writes) -> Result<(), NoMemory> {
        for write in writes.as_slice() {
            let image = write.image.as_ref();
            if image.is_none() {
                self.gone = self.gone.wrapping_add(1);
            }
            let image = image.map(|image| Image::from_bytes(image.bytes()));
            self.known.put(alloc, write.key, image)?;
        }
        Ok(())
    }

    /// Gives a page that was never used as a room.
    pub fn add_room(&mut self, area: u32) -> Result<(), NoMemory> {
        let page = self.next_page;
        self.rooms.push(Dbkey {
            area,
            page,
            line: 0,
        })?;
        self.next_page = page.wrapping_add(1);
        Ok(())
    }
}
