// Needs that come behind the first one: of the same kind and area, each behind the one before it.
ghost use Rattle.std.specs.Prelude.{◌≡◌, true, [], OnOk};
ghost use Rattle.line_view.specs.declared.need.Need.{Need as Needed};
ghost use Rattle.line_view.specs.Held.{knows};
ghost use Rattle.line_view.specs.Stops.{Lacks};
ghost use Rattle.rdo_acts.specs.Ahead.{place_of as place, IsBehind, AreAheadTo};
ghost use Rattle.index_ahead.specs.Added.{AddsOnly};
ghost use Rattle.rdo_acts.specs.Looking.{IsRoomWithin, IsLineOf};

use line_view::{Known, Need, Room, Seen, View};
use rdb_types::{Dbkey, Items, NoMemory};
use std::alloc::Global;
use std::collections::BTreeSet;

fn place_of(key: Dbkey) -> u64
    ensures { result ≡ place key }
{
    u64::from(key.page) * 65_536 + u64::from(key.line)
}

fn comes_behind(one: Need, other: Need) -> bool
    ensures { result ≡ true → IsBehind one other }
{
    match (one, other) {
        (Need::Line(a), Need::Line(b)) => a.area == b.area && place_of(a) < place_of(b),
        (Need::Room(a), Need::Room(b)) => a.area == b.area && a.class == b.class && a.nth < b.nth,
        _ => false,
    }
}

fn is_unknown(known: &Known, need: Need) -> bool
    ensures { result ≡ true → Lacks (knows known.now) need }
{
    match need {
        Need::Line(key) => match known.line(key) {
            Seen::Unknown => true,
            Seen::Absent | Seen::Present(_) => false,
        },
        Need::Area(area) => known.area(area).is_none(),
        Need::Room(room) => known.room(room).is_none(),
    }
}

/// Needs that aren't known, each behind the one before it.
#[derive(Drop)]
pub(crate) struct Batch {
    last: Need,
    pub needs: Items<Need>,
}

impl Batch {
    /// None behind this one yet.
    pub fn new(alloc: Global, first: Need) -> Batch
        ensures { result ≡ record { last = first; needs = [] } }
    {
        Batch {
            last: first,
            needs: Items::new(alloc),
        }
    }

    /// Adds a need where it comes behind the last one and isn't known.
    pub fn add(&mut self, known: &Known, need: Need) -> Result<(), NoMemory>
        ensures ahead { OnOk result ((first : Needed) → AreAheadTo (knows known.now) first self.old.needs self.old.last → AreAheadTo (knows known.now) first self.new.needs self.new.last) }
        ensures only { OnOk result (AddsOnly (λ n. n ≡ need) self.old.needs self.new.needs) }
    {
        if comes_behind(self.last, need) && is_unknown(known, need) {
            self.needs.push(need)?;
            self.last = need;
        }
        Ok(())
    }

    /// Adds the rooms that come behind this one, up to so many.
    pub fn add_rooms(&mut self, known: &Known, room: Room, more: u32) -> Result<(), NoMemory>
        ensures ahead { OnOk result ((first : Needed) → AreAheadTo (knows known.now) first self.old.needs self.old.last → AreAheadTo (knows known.now) first self.new.needs self.new.last) }
        ensures only { OnOk result (AddsOnly (IsRoomWithin room more) self.old.needs self.new.needs) }
    {
        for step in 0..more {
            let Some(nth) = room.nth.checked_add(step) else {
                return Ok(());
            };
            self.add(known, Need::Room(Room { nth, ..room }))?;
        }
        Ok(())
    }

    /// Adds the lines at these Dbkeys.
    pub fn add_lines(&mut self, known: &Known, keys: &BTreeSet<Dbkey>) -> Result<(), NoMemory>
        ensures ahead { OnOk result ((first : Needed) → AreAheadTo (knows known.now) first self.old.needs self.old.last → AreAheadTo (knows known.now) first self.new.needs self.new.last) }
        ensures only { OnOk result (AddsOnly (IsLineOf keys.now.keys) self.old.needs self.new.needs) }
    {
        for key in keys {
            self.add(known, Need::Line(*key))?;
        }
        Ok(())
    }
}
