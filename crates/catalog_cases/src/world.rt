// What is known of lines, and rooms without end.
use case_words::{image_of, key_of, number_of};
use line_view::{Known, Room, Seen, View, Writes};
use rdb_types::{Dbkey, Image, NoMemory};
use std::alloc::Global;
use std::collections::BTreeSet;

/// What is known of lines. The rooms are the lines of one number, on the pages from 0 on.
#[derive(Drop)]
pub struct World {
    pub known: Known,
    /// The number of the next definition.
    pub turn: u16,
}

impl View for World {
    ghost use Rattle.std.specs.Prelude.{Some};
    ghost use Rattle.line_view.specs.Held.{knows as held};

    ghost knows = { λ v. record (held v.known) { room = λ r. Some (record { area = r.area; page = r.nth; line = v.turn }) } };

    fn line(&self, key: Dbkey) -> Seen<'_> {
        self.known.line(key)
    }

    fn area(&self, area: u32) -> Option<&BTreeSet<Dbkey>> {
        self.known.area(area)
    }

    fn room(&self, room: Room) -> Option<Dbkey> {
        Some(Dbkey {
            area: room.area,
            page: room.nth,
            line: self.turn,
        })
    }
}

// The catalog without lines is known.
fn empty_catalog(alloc: Global) -> Result<Known, NoMemory> {
    let mut known = Known::new(alloc);
    known.learn_area(alloc, 1, &[])?;
    Ok(known)
}

impl World {
    pub fn new(alloc: Global) -> Result<World, NoMemory> {
        Ok(World {
            known: empty_catalog(alloc)?,
            turn: 0,
        })
    }

    /// Begins with an empty catalog.
    pub fn begin(&mut self, alloc: Global) -> Result<(), NoMemory> {
        self.known = empty_catalog(alloc)?;
        self.turn = 0;
        Ok(())
    }

    /// Nothing is known.
    pub fn forget(&mut self, alloc: Global) {
        self.known = Known::new(alloc);
    }

    /// An area has no lines yet.
    pub fn learn_area(&mut self, alloc: Global, words: &str) -> Result<(), NoMemory> {
        let area = number_of(Some(words)).unwrap_or(0);
        self.known.learn_area(alloc, area, &[])
    }

    /// Lays a line as `1:2:0 0102`, or takes it away.
    pub fn put(&mut self, alloc: Global, words: &str) -> Result<(), NoMemory> {
        let (key, image) = words.split_once(' ').unwrap_or((words, ""));
        match key_of(key) {
            Some(key) => self.known.put(alloc, key, image_of(image)),
            None => Ok(()),
        }
    }

    /// Lays the writes of a definition.
    pub fn lay(&mut self, alloc: Global, writes: &Writes) -> Result<(), NoMemory> {
        for write in writes.as_slice() {
            let image = write.image.as_ref();
            let image = image.map(|image| Image::from_bytes(image.bytes()));
            self.known.put(alloc, write.key, image)?;
        }
        self.turn = self.turn.wrapping_add(1);
        Ok(())
    }

    /// Takes lines away.
    pub fn erase(&mut self, alloc: Global, keys: &[Dbkey]) -> Result<(), NoMemory> {
        for key in keys {
            self.known.put(alloc, *key, None)?;
        }
        Ok(())
    }
}
