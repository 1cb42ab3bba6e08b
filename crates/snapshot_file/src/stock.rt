// Free slots that are set aside.
ghost use Rattle.std.specs.Prelude.{◌≡◌, ◌≤◌, ◌<◌, ◌+◌, ◌-◌, ℕ, true, false, Err, IfOk, OnOk, OnErr, length};
ghost use Rattle.snapshot_file.specs.Slots.{is_free, left_in, Takes, Gives, Store};

use crate::{Free, SnapFull};
use rdb_page::NoMemory;
use std::alloc::Global;
use std::marker::Model;

/// The slots of a snapshot file. Before its first write a statement sets aside as many as it will take, so that none is wanting behind it. Each call but `new` takes constant time and no memory.
#[derive(Drop)]
pub struct Stock {
    free: Free,
    limit: u32,
    aside: u32,
}

impl Model for Stock {
    ghost use Rattle.std.specs.Prelude.{◌≤◌, ◌≡◌, ◌<◌, ◌^◌, length};
    ghost use Rattle.snapshot_file.specs.Slots.{Store, left_in};

    ghost Value = { Store };

    ghost view = { λ s. record { slots = s.free; aside = s.aside } };

    ghost invariant = { λ s. (s.aside ≤ left_in s.free) × (length s.free ≡ s.limit) };
}

impl Stock {
    /// All slots up to a limit are free.
    pub fn new(alloc: Global, limit: u32) -> Result<Stock, NoMemory>
        ensures limit { IfOk result (λ made. length made.slots ≡ limit) }
        ensures free { IfOk result (λ made. (slot : ℕ) → 1 ≤ slot → slot ≤ limit
            → is_free made.slots slot ≡ true) }
        ensures aside { IfOk result (λ made. made.aside ≡ 0) }
    {
        let free = Free::new(alloc, limit)?;
        Ok(Stock {
            free,
            limit,
            aside: 0,
        })
    }

    /// Sets aside so many slots. It is refused exactly where fewer are free and not set aside, and then nothing changes.
    pub fn set_aside(&mut self, more: u32) -> Result<(), SnapFull>
        ensures done { OnOk result (self.new ≡ record { slots = self.old.slots; aside = self.old.aside + more }) }
        ensures fits { OnOk result (self.old.aside + more ≤ left_in self.old.slots) }
        ensures full { OnErr result (left_in self.old.slots < self.old.aside + more) }
        ensures limit { OnErr result (result ≡ Err (record { limit = length self.old.slots })) }
        ensures stays { OnErr result (self.new ≡ self.old) }
    {
        let left = self.free.left() - self.aside;
        if more > left {
            return Err(SnapFull { limit: self.limit });
        }
        self.aside += more;
        Ok(())
    }

    /// Takes one of the slots that were set aside.
    pub fn take(&mut self) -> u32
        requires { 1 ≤ self.old.aside }
        ensures taken { Takes self.old.slots self.new.slots result }
        ensures fewer { self.new.aside + 1 ≡ self.old.aside }
    {
        match self.free.take() {
            Ok(slot) => {
                self.aside -= 1;
                slot
            }
            Err(_) => unreachable!(),
        }
    }

    /// So many of the slots that were set aside aren't wanted any more.
    pub fn leave(&mut self, more: u32)
        requires { more ≤ self.old.aside }
        ensures { self.new ≡ record { slots = self.old.slots; aside = self.old.aside - more } }
    {
        self.aside -= more;
    }

    /// Gives a used slot back.
    pub fn give(&mut self, slot: u32)
        requires first { 1 ≤ slot }
        requires last { slot ≤ length self.old.slots }
        requires used { is_free self.old.slots slot ≡ false }
        ensures given { Gives self.old.slots self.new.slots slot }
        ensures aside { self.new.aside ≡ self.old.aside }
    {
        self.free.give(slot);
    }
}
