ghost use Rattle.std.specs.Prelude.{◌≡◌, [], ◌∷◌, true, false, map, option_map, None, IfSome, IfNone, IfOk, OnOk};
ghost use Rattle.std.specs.List.{AllByRecursion};
ghost use Rattle.std.specs.List.Sorted.{IsStrictlySortedBy};
ghost use Rattle.std.specs.FinMap.Entries.{find};
ghost use Rattle.std.specs.Ordering.{nat_cmp};
ghost use Rattle.rdb_types.specs.Order.{dbkey_order};
ghost use Rattle.line_view.specs.Knowledge.{Lines, IsInOrder, Agrees, laid};
ghost use Rattle.line_view.specs.Held.{knows, key_sets};
ghost use Rattle.line_view.specs.Writes.{laid_all};
ghost use Rattle.statement_view.specs.Over.{is_written, seen_of, knows_over, area_written, area_kept, with_over, laid_over, writes_of, Stands, room_at, all_rooms, AreRoomsKnown, AreRoomsWritten};
ghost use Rattle.statement_view.specs.Areas.{WritesOf};

use line_view::{Known, Room, Seen, View, Write, Writes};
use rdb_types::{Dbkey, Image, NoMemory};
use std::alloc::Global;
use std::collections::{BTreeMap, BTreeSet};
use std::marker::Model;

fn copied_keys(keys: &BTreeSet<Dbkey>) -> Result<BTreeSet<Dbkey>, NoMemory>
    ensures { IfOk result (λ copy. copy.keys ≡ keys.now.keys) }
{
    let copy = keys.clone()?;
    Ok(copy)
}

// The keys of an area, where those of areas are seen.
fn seen_area(known: &Known, sees_areas: bool, area: u32) -> Option<&BTreeSet<Dbkey>>
    ensures { option_map (λ keys. keys.now.keys) result ≡ (knows (seen_of sees_areas known.now)).area area }
{
    if sees_areas { known.area(area) } else { None }
}

// The keys of an area that are seen are copied before they are changed.
fn keep_area(
    areas: &mut BTreeMap<u32, BTreeSet<Dbkey>>,
    seen: Option<&BTreeSet<Dbkey>>,
    area: u32,
) -> Result<(), NoMemory>
    ensures { OnOk result (key_sets areas.new.entries ≡ area_kept area (key_sets areas.old.entries) (find nat_cmp area (key_sets areas.old.entries)) (option_map (λ keys. keys.now.keys) seen.entry)) }
{
    if areas.contains_key(&area) {
        return Ok(());
    }
    let Some(keys) = seen else {
        return Ok(());
    };
    let copy = copied_keys(keys)?;
    let _before = areas.insert(area, copy)?;
    Ok(())
}

// The keys of a kept area behind a write.
fn write_key(
    areas: &mut BTreeMap<u32, BTreeSet<Dbkey>>,
    key: Dbkey,
    is_present: bool,
) -> Result<(), NoMemory>
    ensures { OnOk result (key_sets areas.new.entries ≡ area_written key is_present (key_sets areas.old.entries) (find nat_cmp key.area (key_sets areas.old.entries))) }
{
    let Some(keys) = areas.get_mut(&key.area) else {
        return Ok(());
    };
    if is_present {
        let _is_new = keys.insert(key)?;
    } else {
        let _was_there = keys.remove(&key);
    }
    Ok(())
}

fn listed(
    alloc: Global,
    count: usize,
    lines: BTreeMap<Dbkey, Option<Image>>,
) -> Result<Writes, NoMemory>
    ensures { IfOk result (λ writes. writes ≡ writes_of lines.entries) }
{
    let mut writes = Vec::with_capacity(alloc, count)?;
    for (key, image) in lines {
        writes.push(Write { key, image })?;
    }
    Ok(Writes::from_vec(writes))
}

/// What is known, and over it the lines that a statement has written.
#[derive(Drop)]
pub struct Changed<'a> {
    known: &'a Known,
    // Whether the keys of areas that are known are seen.
    sees_areas: bool,
    lines: BTreeMap<Dbkey, Option<Image>>,
    areas: BTreeMap<u32, BTreeSet<Dbkey>>,
    // By the first room of an area and a class: of how many rooms from it on it is noted that they are written, so that they aren't gone past again.
    passed: BTreeMap<Room, u32>,
}

impl<'a> Model for Changed<'a> {
    ghost use Rattle.line_view.specs.Held.{knows, key_sets};
    ghost use Rattle.statement_view.specs.Over.{Over, ArePassed, seen_of};

    ghost Value = { Over };

    ghost view = { λ c. record { base = seen_of c.sees_areas c.known.now; lines = c.lines.entries; areas = key_sets c.areas.entries } };

    ghost invariant = { λ c. ArePassed (knows c.known.now) c.lines.entries c.passed.entries };
}

impl<'a> Changed<'a> {
    /// Nothing is written.
    pub fn new(alloc: Global, known: &'a Known) -> Changed<'a>
        ensures value { result ≡ record { base = known.now; lines = []; areas = [] } }
        ensures stands { (first : Lines) → IsInOrder first → Agrees (knows known.now) first → Stands result first }
    {
        Changed {
            known,
            sees_areas: true,
            lines: BTreeMap::new(alloc),
            areas: BTreeMap::new(alloc),
            passed: BTreeMap::new(alloc),
        }
    }

    /// Nothing is written. Which lines an area has isn't seen, though it be known, so that no write copies its keys: for work that reads no area.
    pub fn without_areas(alloc: Global, known: &'a Known) -> Changed<'a>
        ensures value { result ≡ record { base = seen_of false known.now; lines = []; areas = [] } }
        ensures stands { (first : Lines) → IsInOrder first → Agrees (knows known.now) first → Stands result first }
    {
        Changed {
            known,
            sees_areas: false,
            lines: BTreeMap::new(alloc),
            areas: BTreeMap::new(alloc),
            passed: BTreeMap::new(alloc),
        }
    }

    /// The lines that were written, each once.
    pub fn finish(self, alloc: Global) -> Result<Writes, NoMemory>
        ensures writes { IfOk result (λ writes. (all : Lines) → laid_all writes all ≡ laid_over self.entry.lines all) }
        ensures ordered { IfOk result (λ writes. IsStrictlySortedBy dbkey_order (map (λ write. write.key) writes)) }
        ensures written { IfOk result (λ writes. AllByRecursion (λ write. is_written self.entry.lines write.key ≡ true) writes) }
    {
        let Changed { lines, .. } = self;
        let count = lines.len();
        listed(alloc, count, lines)
    }

    /// Writes a line: it is present with this image, or it isn't. Where memory fails nothing more is said of the view than what was known.
    pub fn put(&mut self, key: Dbkey, image: Option<Image>) -> Result<(), NoMemory>
        ensures ok { OnOk result (self.new ≡ with_over key image self.old) }
        ensures stands { OnOk result ((first : Lines) → Stands self.old first → Stands self.new first) }
        ensures laid { OnOk result ((first : Lines) → Stands self.old first → laid_over self.new.lines first ≡ laid key image (laid_over self.old.lines first)) }
        ensures areas { OnOk result (WritesOf (key.area ∷ []) self.old self.new) }
        ensures known { self.new.base ≡ self.old.base }
    {
        let is_present = image.is_some();
        let seen = seen_area(self.known, self.sees_areas, key.area);
        keep_area(&mut self.areas, seen, key.area)?;
        write_key(&mut self.areas, key, is_present)?;
        let _before = self.lines.insert(key, image)?;
        Ok(())
    }

    fn is_written(&self, key: Dbkey) -> bool
        ensures { result ≡ is_written self.now.lines key }
    {
        self.lines.contains_key(&key)
    }

    // How many rooms of an area and a class, from the first on, are noted as written.
    fn passed_rooms(&self, area: u32, class: u16) -> u32
        ensures { AreRoomsWritten (knows self.now.base) self.now.lines area class result }
    {
        let nth = 0;
        match self.passed.get(&Room { area, class, nth }) {
            Some(count) => *count,
            None => 0,
        }
    }

    // The number that a room of this view has in what is known.
    fn known_number(&self, room: Room) -> Option<u32>
        ensures room { IfSome result (λ nth. (knows self.now.base).room (room_at room.area room.class nth) ≡ (knows_over self.now).room room) }
        ensures first { room.nth ≡ 0 → IfSome result (AreRoomsWritten (knows self.now.base) self.now.lines room.area room.class) }
        ensures none { IfNone result ((knows_over self.now).room room ≡ None) }
    {
        let mut left = room.nth;
        for nth in self.passed_rooms(room.area, room.class)..u32::MAX {
            let key = self.known.room(Room { nth, ..room })?;
            if !self.is_written(key) {
                if left == 0 {
                    return Some(nth);
                }
                left -= 1;
            }
        }
        None
    }

    /// The first room of an area and a class, as `room` gives it. How many are written before it is noted, so that looking for the next goes on from there.
    pub fn first_room(&mut self, area: u32, class: u16) -> Result<Option<Dbkey>, NoMemory>
        ensures room { IfOk result (λ found. found ≡ (knows_over self.old).room (room_at area class 0)) }
        ensures view { self.new ≡ self.old }
    {
        let nth = 0;
        let room = Room { area, class, nth };
        let Some(nth) = self.known_number(room) else {
            return Ok(None);
        };
        let _before = self.passed.insert(room, nth)?;
        Ok(self.known.room(Room { nth, ..room }))
    }

    /// The first room of an area and a class that isn't known: what to learn where the view has too few of them. None is answered only where the rooms of all numbers are known.
    pub fn lacks(&self, area: u32, class: u16) -> Option<Room>
        ensures of { IfSome result (λ room. room ≡ room_at area class room.nth) }
        ensures unknown { IfSome result (λ room. (knows self.now.base).room room ≡ None) }
        ensures first { IfSome result (λ room. AreRoomsKnown (knows self.now.base) area class room.nth) }
        ensures none { IfNone result (AreRoomsKnown (knows self.now.base) area class all_rooms) }
    {
        for nth in 0..u32::MAX {
            let room = Room { area, class, nth };
            if self.known.room(room).is_none() {
                return Some(room);
            }
        }
        None
    }
}

impl<'a> View for Changed<'a> {
    ghost knows = { knows_over };

    fn line(&self, key: Dbkey) -> Seen<'_> {
        match self.lines.get(&key) {
            None => self.known.line(key),
            Some(None) => Seen::Absent,
            Some(Some(image)) => Seen::Present(image.bytes()),
        }
    }

    fn area(&self, area: u32) -> Option<&BTreeSet<Dbkey>> {
        match self.areas.get(&area) {
            Some(keys) => Some(keys),
            None => seen_area(self.known, self.sees_areas, area),
        }
    }

    fn room(&self, room: Room) -> Option<Dbkey> {
        let nth = self.known_number(room)?;
        self.known.room(Room { nth, ..room })
    }
}
