ghost use Rattle.std.specs.Prelude.{◌≡◌, ℕ, None, Some, map, take, IfOk, OnOk, OnErr};
ghost use Rattle.std.specs.FinMap.Entries.{find};
ghost use Rattle.line_view.specs.Knowledge.{Lines, IsInOrder, Agrees, keys_of, line_in, lines_in, laid};
ghost use Rattle.line_view.specs.Held.{nothing, knows, ordered, key_sets, entry_of, TakesBack, with_line, with_lines, with_area, with_room, without_rooms, with_write, areas_written, room_order};

use crate::image_bytes::ImageBytes;
use crate::{Room, Seen, View};
use ordered_entries::{Copied, Dbkey, Image, NoMemory};
use std::alloc::Global;
use std::collections::{BTreeMap, BTreeSet};
use std::marker::Model;

/// A present line.
#[derive(Drop)]
pub struct PresentLine {
    pub key: Dbkey,
    pub image: Image,
}

// The keys of a known area behind a write. Only a new key wants memory.
fn write_key(
    areas: &mut BTreeMap<u32, BTreeSet<Dbkey>>,
    key: Dbkey,
    is_present: bool,
) -> Result<(), NoMemory>
    ensures ok { OnOk result (key_sets areas.new.entries ≡ areas_written key is_present (key_sets areas.old.entries)) }
    ensures err { OnErr result (key_sets areas.new.entries ≡ key_sets areas.old.entries) }
{
    let Some(keys) = areas.get_mut(&key.area) else {
        return Ok(());
    };
    if is_present {
        let _is_new = keys.insert(key)?;
    } else {
        let _was_there = keys.remove(&key);
    }
    Ok(())
}

// What was known of the line before it was laid over, which wants no memory.
fn take_back(
    lines: &mut BTreeMap<Dbkey, Option<ImageBytes>>,
    key: Dbkey,
    before: Option<Option<ImageBytes>>,
)
    ensures { TakesBack key before lines.old.entries lines.new.entries }
{
    match before {
        Some(image) => {
            let _laid = lines.insert(key, image);
        }
        None => {
            let _laid = lines.remove(&key);
        }
    }
}

fn key_set(alloc: Global, lines: &[PresentLine]) -> Result<BTreeSet<Dbkey>, NoMemory>
    ensures { IfOk result (λ keys. keys.keys ≡ ordered (keys_of (map entry_of lines.now))) }
{
    let mut keys = BTreeSet::new(alloc);
    for line in lines {
        let _is_new = keys.insert(line.key)?;
    }
    Ok(keys)
}

fn bytes_of(alloc: Global, image: Option<Image>) -> Result<Option<ImageBytes>, NoMemory>
    ensures { IfOk result (λ bytes. bytes ≡ image) }
{
    match image {
        Some(image) => Ok(Some(ImageBytes::of(alloc, &image)?)),
        None => Ok(None),
    }
}

/// What is known of lines, areas and rooms. A look-up takes time in the logarithm of what is known. A known line takes the memory of its bytes and a few words.
#[derive(Drop)]
pub struct Known {
    lines: BTreeMap<Dbkey, Option<ImageBytes>>,
    areas: BTreeMap<u32, BTreeSet<Dbkey>>,
    rooms: BTreeMap<Room, Dbkey>,
}

impl Model for Known {
    ghost use Rattle.line_view.specs.Held.{Held, AreRooms, key_sets};

    ghost Value = { Held };

    ghost view = { λ k. record { lines = k.lines.entries; areas = key_sets k.areas.entries; rooms = k.rooms.entries } };

    ghost invariant = { λ k. AreRooms k.rooms.entries };
}

impl Known {
    /// Nothing is known.
    pub fn new(alloc: Global) -> Known
        ensures { result ≡ nothing }
    {
        Known {
            lines: BTreeMap::new(alloc),
            areas: BTreeMap::new(alloc),
            rooms: BTreeMap::new(alloc),
        }
    }

    /// Takes the answer to the need of a line.
    pub fn learn_line(
        &mut self,
        alloc: Global,
        key: Dbkey,
        image: Option<Image>,
    ) -> Result<(), NoMemory>
        ensures ok { OnOk result (self.new ≡ with_line key image self.old) }
        ensures agrees { OnOk result ((all : Lines) → Agrees (knows self.old) all
            → image ≡ line_in key all → Agrees (knows self.new) all) }
        ensures err { OnErr result (self.new ≡ self.old) }
    {
        let bytes = bytes_of(alloc, image)?;
        let _before = self.lines.insert(key, bytes)?;
        Ok(())
    }

    /// Takes the answer to the need of an area: its present lines. Where memory fails some of the lines may be known, but nothing that isn't so.
    pub fn learn_area(
        &mut self,
        alloc: Global,
        area: u32,
        lines: &[PresentLine],
    ) -> Result<(), NoMemory>
        ensures ok { OnOk result (self.new ≡ with_area area (map entry_of lines.now) self.old) }
        ensures agrees { (all : Lines) → IsInOrder all → Agrees (knows self.old) all
            → map entry_of lines.now ≡ lines_in area all → Agrees (knows self.new) all }
        ensures err { OnErr result ((n : ℕ) × (self.new ≡ with_lines (take n (map entry_of lines.now)) self.old)) }
    {
        let keys = key_set(alloc, lines)?;
        for line in lines {
            self.learn_line(alloc, line.key, Some(Image::from_bytes(line.image.bytes())))?;
        }
        let _before = self.areas.insert(area, keys)?;
        Ok(())
    }

    /// Takes the answer to the need of a room.
    pub fn learn_room(&mut self, room: Room, key: Dbkey) -> Result<(), NoMemory>
        requires within { key.area ≡ room.area }
        requires apart { (other : Room) → find room_order other self.old.rooms ≡ Some key → other ≡ room }
        ensures ok { OnOk result (self.new ≡ with_room room key self.old) }
        ensures agrees { OnOk result ((all : Lines) → Agrees (knows self.old) all
            → line_in key all ≡ None → Agrees (knows self.new) all) }
        ensures err { OnErr result (self.new ≡ self.old) }
    {
        let _before = self.rooms.insert(room, key)?;
        Ok(())
    }

    /// Forgets all rooms, which wants no memory.
    pub fn forget_rooms(&mut self)
        ensures rooms { self.new ≡ without_rooms self.old }
        ensures agrees { (all : Lines) → Agrees (knows self.old) all → Agrees (knows self.new) all }
    {
        self.rooms.clear();
    }

    /// Lays a write over what is known: the line is present with this image, or it isn't.
    pub fn put(&mut self, alloc: Global, key: Dbkey, image: Option<Image>) -> Result<(), NoMemory>
        ensures ok { OnOk result (self.new ≡ with_write key image self.old) }
        ensures agrees { OnOk result ((all : Lines) → IsInOrder all → Agrees (knows self.old) all
            → Agrees (knows self.new) (laid key image all)) }
        ensures err { OnErr result (self.new ≡ self.old) }
    {
        let is_present = image.is_some();
        let bytes = bytes_of(alloc, image)?;
        let before = self.lines.insert(key, bytes)?;
        if let Err(stop) = write_key(&mut self.areas, key, is_present) {
            take_back(&mut self.lines, key, before);
            return Err(stop);
        }
        Ok(())
    }
}

impl Copied for Known {
    fn copied(&self, _alloc: Global) -> Result<Known, NoMemory> {
        let lines = self.lines.clone()?;
        let areas = self.areas.clone()?;
        let rooms = self.rooms.clone()?;
        Ok(Known {
            lines,
            areas,
            rooms,
        })
    }
}

impl View for Known {
    ghost knows = { knows };

    fn line(&self, key: Dbkey) -> Seen<'_> {
        match self.lines.get(&key) {
            None => Seen::Unknown,
            Some(None) => Seen::Absent,
            Some(Some(image)) => Seen::Present(image.as_slice()),
        }
    }

    fn area(&self, area: u32) -> Option<&BTreeSet<Dbkey>> {
        self.areas.get(&area)
    }

    fn room(&self, room: Room) -> Option<Dbkey> {
        let key = *self.rooms.get(&room)?;
        if let Seen::Present(_) = self.line(key) {
            return None;
        }
        Some(key)
    }
}
