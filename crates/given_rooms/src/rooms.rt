ghost use Rattle.std.specs.Prelude.{◌≡◌, ℕ, List, [], take, is_some, IfSome, OnOk, OnErr};
ghost use Rattle.std.specs.FinMap.Entries.{find, put};
ghost use Rattle.rdb_types.specs.Order.{dbkey_order};
ghost use Rattle.lock_needs.specs.declared.need.Need.{Need};
ghost use Rattle.line_view.specs.Knowledge.{Lines, Agrees};
ghost use Rattle.line_view.specs.declared.need.Room.{Room as RoomValue};
ghost use Rattle.line_view.specs.Held.{knows, room_order, without_rooms};
ghost use Rattle.kept_apart.specs.Alike.{IsGuarded};
ghost use Rattle.given_rooms.specs.Given.{is_absent, with_one, with_given};

use line_view::{Known, Room, Seen, View};
use ordered_entries::Entries;
use rdb_types::{Dbkey, NoMemory};
use std::alloc::Global;
use std::marker::Model;

/// The rooms that a statement was given, by their lines: no line stands for two rooms.
#[derive(Drop)]
pub struct Rooms {
    given: Entries<Dbkey, Room>,
    // The line that was given last in each area, also to statements before.
    ends: Vec<Dbkey>,
}

impl Model for Rooms {
    ghost use Rattle.std.specs.Prelude.{List};
    ghost use Rattle.rdb_types.specs.declared.keys.Dbkey.{Dbkey};
    ghost use Rattle.line_view.specs.declared.need.Room.{Room};

    ghost Value = { List (Dbkey × Room) };

    ghost view = { λ r. r.given };
}

// Whether a line is known to be absent.
fn is_known_absent(known: &Known, key: Dbkey) -> bool
    ensures { result ≡ is_absent known.now key }
{
    matches!(known.line(key), Seen::Absent)
}

// Makes a room known, if its line is of its area and known to be absent.
fn learn_one(known: &mut Known, room: Room, key: Dbkey) -> Result<(), NoMemory>
    requires apart { (other : RoomValue) → find room_order other known.old.rooms ≡ Some key → other ≡ room }
    ensures ok { OnOk result (known.new ≡ with_one (key, room) known.old) }
    ensures err { OnErr result (known.new ≡ known.old) }
    ensures agrees { (all : Lines) → Agrees (knows known.old) all → Agrees (knows known.new) all }
    ensures guarded { (got : List Need) → IsGuarded got (knows known.old) → IsGuarded got (knows known.new) }
{
    if key.area == room.area && is_known_absent(known, key) {
        known.learn_room(room, key)?;
    }
    Ok(())
}

impl Rooms {
    /// None was given, which takes no memory.
    pub fn new(alloc: Global) -> Rooms
        ensures { result ≡ [] }
    {
        Rooms {
            given: Entries::new(alloc),
            ends: Vec::new(alloc),
        }
    }

    /// None is given any more. Where to look on in each area stays as it is.
    pub fn renew(&mut self, alloc: Global)
        ensures { self.new ≡ [] }
    {
        self.given = Entries::new(alloc);
    }

    /// Whether this line was given.
    pub fn has(&self, key: Dbkey) -> bool
        ensures { result ≡ is_some (find dbkey_order key self.now) }
    {
        self.given.find(&key).is_some()
    }

    /// A line of the area behind which to look for the next room: the last that was given in this area.
    pub fn last_in(&self, area: u32) -> Option<Dbkey>
        ensures { IfSome result (λ key. key.area ≡ area) }
    {
        for end in &self.ends {
            if end.area == area {
                return Some(*end);
            }
        }
        None
    }

    // Notes that the next room of the line's area is looked for behind it.
    fn look_behind(&mut self, key: Dbkey) -> Result<(), NoMemory>
        ensures { self.new ≡ self.old }
    {
        match self.ends.iter().position(|end| end.area == key.area) {
            Some(at) => self.ends[at] = key,
            None => self.ends.push(key)?,
        }
        Ok(())
    }

    /// Gives a room this line.
    pub fn give(&mut self, room: Room, key: Dbkey) -> Result<(), NoMemory>
        ensures ok { OnOk result (self.new ≡ put dbkey_order key room self.old) }
        ensures err { OnErr result (self.new ≡ self.old) }
    {
        self.look_behind(key)?;
        self.given.put(key, room)
    }

    /// Makes these rooms known, and no others: of each the line has to be of its area, and known to be absent. So what is known goes on
    /// agreeing with every map with which it agreed, and is guarded where it was. Where memory fails the first of them may be known.
    pub fn learn(&self, known: &mut Known) -> Result<(), NoMemory>
        ensures ok { OnOk result (known.new ≡ with_given self.now (without_rooms known.old)) }
        ensures err { OnErr result ((n : ℕ) × (known.new ≡ with_given (take n self.now) (without_rooms known.old))) }
        ensures agrees { (all : Lines) → Agrees (knows known.old) all → Agrees (knows known.new) all }
        ensures guarded { (got : List Need) → IsGuarded got (knows known.old) → IsGuarded got (knows known.new) }
    {
        known.forget_rooms();
        let given = self.given.as_slice();
        for entry in given {
            let (key, room) = *entry;
            learn_one(known, room, key)?;
        }
        Ok(())
    }
}
