// The slots of all three snapshot files.
ghost use Rattle.std.specs.Prelude.{◌≡◌, ◌≤◌, ◌⊎◌, ℕ, length, IfOk, IfErr, OnOk, OnErr};
ghost use Rattle.version_writing.specs.Slots.{AreFree, GivesBack, IsFullOf, with_aside, without_aside};
ghost use Rattle.version_writing.specs.Wanting.{Sifts, IsUnwantedIn};

use crate::{FileSlots, MayWant};
use rdb_types::{NoMemory, Tsn};
use snapshot_file::SnapFull;
use std::alloc::Global;

/// How many slots a statement wants of each snapshot file: one for each line that it changes for the first time in its transaction and that was ever used.
#[derive(Clone, Copy, Debug, PartialEq, Eq)]
pub struct Wanted {
    pub catalog: u32,
    pub relations: u32,
    pub indexes: u32,
}

/// The slots of the three snapshot files, by the storage area of the lines.
#[derive(Drop)]
pub struct SnapshotSlots {
    pub catalog: FileSlots,
    pub relations: FileSlots,
    pub indexes: FileSlots,
}

impl SnapshotSlots {
    /// All slots up to a limit are free.
    pub fn new(alloc: Global, limit: u32) -> Result<SnapshotSlots, NoMemory>
        ensures { IfOk result (λ made. AreFree made.catalog limit × AreFree made.relations limit × AreFree made.indexes limit) }
    {
        Ok(SnapshotSlots {
            catalog: FileSlots::new(alloc, limit)?,
            relations: FileSlots::new(alloc, limit)?,
            indexes: FileSlots::new(alloc, limit)?,
        })
    }

    /// Sets aside all slots that a statement wants, before its first write. It is refused exactly where one of the files has too few, and then nothing changes.
    pub fn set_aside(&mut self, wanted: Wanted) -> Result<(), SnapFull>
        ensures catalog { OnOk result (self.new.catalog ≡ with_aside wanted.catalog self.old.catalog) }
        ensures relations { OnOk result (self.new.relations ≡ with_aside wanted.relations self.old.relations) }
        ensures indexes { OnOk result (self.new.indexes ≡ with_aside wanted.indexes self.old.indexes) }
        ensures full { IfErr result (λ full. IsFullOf self.old.catalog wanted.catalog full.limit
            ⊎ (IsFullOf self.old.relations wanted.relations full.limit
            ⊎ IsFullOf self.old.indexes wanted.indexes full.limit)) }
        ensures stays { OnErr result (self.new ≡ self.old) }
    {
        self.catalog.set_aside(wanted.catalog)?;
        if let Err(full) = self.relations.set_aside(wanted.relations) {
            self.catalog.leave(wanted.catalog);
            return Err(full);
        }
        if let Err(full) = self.indexes.set_aside(wanted.indexes) {
            self.catalog.leave(wanted.catalog);
            self.relations.leave(wanted.relations);
            return Err(full);
        }
        Ok(())
    }

    /// So many of the slots that were set aside aren't wanted any more.
    pub fn leave(&mut self, wanted: Wanted)
        requires catalog { wanted.catalog ≤ self.old.catalog.aside }
        requires relations { wanted.relations ≤ self.old.relations.aside }
        requires indexes { wanted.indexes ≤ self.old.indexes.aside }
        ensures catalog { self.new.catalog ≡ without_aside wanted.catalog self.old.catalog }
        ensures relations { self.new.relations ≡ without_aside wanted.relations self.old.relations }
        ensures indexes { self.new.indexes ≡ without_aside wanted.indexes self.old.indexes }
    {
        self.catalog.leave(wanted.catalog);
        self.relations.leave(wanted.relations);
        self.indexes.leave(wanted.indexes);
    }

    /// Gives back all slots that hold what none of these members wants. It looks at each slot in use once.
    pub fn give_unwanted<T: MayWant>(&mut self, members: &[T])
        ensures catalog { Sifts (IsUnwantedIn T.unwanted members.now) self.old.catalog self.new.catalog }
        ensures relations { Sifts (IsUnwantedIn T.unwanted members.now) self.old.relations self.new.relations }
        ensures indexes { Sifts (IsUnwantedIn T.unwanted members.now) self.old.indexes self.new.indexes }
    {
        self.catalog.give_unwanted(members);
        self.relations.give_unwanted(members);
        self.indexes.give_unwanted(members);
    }

    /// Gives back all slots that hold what a transaction pushed. It looks at each slot in use once.
    pub fn give_pushed(&mut self, tsn: Tsn)
        requires { 1 ≤ tsn.number }
        ensures catalog { GivesBack self.old.catalog self.new.catalog tsn.number }
        ensures relations { GivesBack self.old.relations self.new.relations tsn.number }
        ensures indexes { GivesBack self.old.indexes self.new.indexes tsn.number }
    {
        self.catalog.give_pushed(tsn);
        self.relations.give_pushed(tsn);
        self.indexes.give_pushed(tsn);
    }
}
