// The slots of a snapshot file, and whose they are.
ghost use Rattle.std.specs.Prelude.{◌≡◌, ◌≤◌, ◌<◌, ◌+◌, ◌-◌, ℕ, true, Err, IfOk, OnOk, OnErr, length};
ghost use Rattle.snapshot_file.specs.Slots.{is_free, left_in};
ghost use Rattle.version_writing.specs.Slots.{GivesBack, SlotTable, TakesFor, pusher_at};
ghost use Rattle.version_writing.specs.Wanting.{Sifts, IsUnwantedIn};

use crate::sifting::sift;
use crate::wanting::{AllBut, MayWant};
use rdb_types::{NoMemory, Tsn};
use snapshot_file::{SnapFull, Stock};
use std::alloc::Global;
use std::marker::Model;

/// The slots of one snapshot file, with the transaction that pushed what each of them holds, and those in use in a row. It takes twenty bytes a slot, all when it is made.
#[derive(Drop)]
pub struct FileSlots {
    stock: Stock,
    limit: u32,
    pushers: Vec<Tsn>,
    taken: Vec<u32>,
    count: u32,
}

impl Model for FileSlots {
    ghost use Rattle.std.specs.Prelude.{◌≡◌, length};
    ghost use Rattle.version_writing.specs.Slots.{SlotTable, IsTable};
    ghost use Rattle.version_writing.specs.Wanting.{AreTaken};

    ghost Value = { SlotTable };

    ghost view = { λ f. record { slots = f.stock.slots; aside = f.stock.aside; pushers = f.pushers.items } };

    ghost invariant = { λ f. IsTable f.stock.slots f.pushers.items × (length f.pushers.items ≡ f.limit) × AreTaken f.stock.slots f.taken.items f.count };
}

impl FileSlots {
    /// All slots up to a limit are free.
    pub fn new(alloc: Global, limit: u32) -> Result<FileSlots, NoMemory>
        ensures limit { IfOk result (λ made. length made.slots ≡ limit) }
        ensures free { IfOk result (λ made. (slot : ℕ) → 1 ≤ slot → slot ≤ limit
            → is_free made.slots slot ≡ true) }
        ensures aside { IfOk result (λ made. made.aside ≡ 0) }
    {
        let stock = Stock::new(alloc, limit)?;
        let pushers = vec![in alloc; Tsn { number: 0 }; limit as usize]?;
        let taken = vec![in alloc; 0; limit as usize]?;
        Ok(FileSlots {
            stock,
            limit,
            pushers,
            taken,
            count: 0,
        })
    }

    /// How many slots there are.
    pub fn count(&self) -> u32
        ensures { result ≡ length self.now.slots }
    {
        self.limit
    }

    /// Sets aside as many slots as a statement will take, before its first write. It is refused exactly where fewer are free and not set aside, and then nothing changes.
    pub fn set_aside(&mut self, more: u32) -> Result<(), SnapFull>
        ensures done { OnOk result (self.new ≡ record { slots = self.old.slots; aside = self.old.aside + more; pushers = self.old.pushers }) }
        ensures fits { OnOk result (self.old.aside + more ≤ left_in self.old.slots) }
        ensures full { OnErr result (left_in self.old.slots < self.old.aside + more) }
        ensures limit { OnErr result (result ≡ Err (record { limit = length self.old.slots })) }
        ensures stays { OnErr result (self.new ≡ self.old) }
    {
        self.stock.set_aside(more)
    }

    /// So many of the slots that were set aside aren't wanted any more: their lines were never used, or the session died.
    pub fn leave(&mut self, more: u32)
        requires { more ≤ self.old.aside }
        ensures { self.new ≡ record { slots = self.old.slots; aside = self.old.aside - more; pushers = self.old.pushers } }
    {
        self.stock.leave(more);
    }

    /// Takes one of the slots that were set aside, for what a transaction pushes.
    pub fn take(&mut self, tsn: Tsn) -> u32
        requires aside { 1 ≤ self.old.aside }
        requires number { 1 ≤ tsn.number }
        ensures taken { TakesFor self.old self.new result tsn }
        ensures fewer { self.new.aside + 1 ≡ self.old.aside }
        ensures left { left_in self.new.slots + 1 ≡ left_in self.old.slots }
    {
        let slot = self.stock.take();
        self.pushers[slot as usize - 1] = tsn;
        self.taken[self.count as usize] = slot;
        self.count += 1;
        slot
    }

    /// The transaction that pushed what a slot holds; of a free one the number is 0.
    pub fn pusher(&self, chain: u32) -> Tsn
        requires first { 1 ≤ chain }
        requires last { chain ≤ length self.now.slots }
        ensures { result ≡ pusher_at self.now.pushers chain }
    {
        self.pushers[chain as usize - 1]
    }

    /// Gives back all slots that hold what none of these members wants. It looks at each slot in use once.
    pub fn give_unwanted<T: MayWant>(&mut self, members: &[T])
        ensures { Sifts (IsUnwantedIn T.unwanted members.now) self.old self.new }
    {
        self.count = sift(
            &mut self.stock,
            self.pushers.as_mut_slice(),
            self.taken.as_mut_slice(),
            self.count,
            members,
        );
    }

    /// Gives back all slots that hold what a transaction pushed. It looks at each slot in use once.
    pub fn give_pushed(&mut self, tsn: Tsn)
        requires { 1 ≤ tsn.number }
        ensures { GivesBack self.old self.new tsn.number }
    {
        self.give_unwanted(&[AllBut { tsn }]);
        // (so each free slot is nobody's)
        let _ = &self.stock;
    }
}
