// Which slots are free.
ghost use Rattle.std.specs.Prelude.{◌≡◌, ◌≤◌, ◌<◌, ◌+◌, ℕ, Bool, List, true, false, Err, IfOk, OnErr, length, slice_index};
ghost use Rattle.snapshot_file.specs.Slots.{is_free, left_in, Takes, Gives, IsOrder, slots_in};

use rdb_page::NoMemory;
use std::alloc::Global;
use std::marker::Model;

/// No slot of a snapshot file is free.
#[derive(Clone, Copy, Debug, PartialEq, Eq)]
pub struct SnapFull {
    pub limit: u32,
}

/// Which of the slots 1 to a limit are free. Each call but `new` takes constant time and no memory.
#[derive(Drop)]
pub struct Free {
    order: Vec<u32>,
    places: Vec<u32>,
    used: u32,
}

impl Model for Free {
    ghost Value = { List Bool };

    ghost view = { λ f. slots_in f.places.items f.used };

    ghost invariant = { λ f. IsOrder f.order.items f.places.items f.used };
}

impl Free {
    /// All slots up to a limit are free.
    pub fn new(alloc: Global, limit: u32) -> Result<Free, NoMemory>
        ensures limit { IfOk result (λ made. length made ≡ limit) }
        ensures free { IfOk result (λ made. (slot : ℕ) → 1 ≤ slot → slot ≤ limit
            → is_free made slot ≡ true) }
    {
        let order = ascending(alloc, limit)?;
        let places = ascending(alloc, limit)?;
        Ok(Free {
            order,
            places,
            used: 0,
        })
    }

    /// How many slots are free.
    pub fn left(&self) -> u32
        ensures { result ≡ left_in self.now }
    {
        self.order.len() as u32 - self.used
    }

    /// Takes a free slot. It is refused only where none is free, and then nothing changes.
    pub fn take(&mut self) -> Result<u32, SnapFull>
        ensures taken { IfOk result (λ slot. Takes self.old self.new slot) }
        ensures full { OnErr result ((slot : ℕ) → is_free self.old slot ≡ false) }
        ensures limit { OnErr result (result ≡ Err (record { limit = length self.old })) }
        ensures stays { OnErr result (self.new ≡ self.old) }
    {
        let limit = self.order.len() as u32;
        if self.used == limit {
            return Err(SnapFull { limit });
        }
        let slot = self.order[self.used as usize];
        self.used += 1;
        Ok(slot)
    }

    /// Gives a used slot back.
    pub fn give(&mut self, slot: u32)
        requires first { 1 ≤ slot }
        requires last { slot ≤ length self.old }
        requires used { is_free self.old slot ≡ false }
        ensures { Gives self.old self.new slot }
    {
        let end = self.used as usize - 1;
        let place = self.places[slot as usize - 1];
        let last = self.order[end];
        self.order[place as usize - 1] = last;
        self.places[last as usize - 1] = place;
        self.order[end] = slot;
        self.places[slot as usize - 1] = self.used;
        self.used -= 1;
    }
}

/// The numbers from 1 to a limit.
fn ascending(alloc: Global, limit: u32) -> Result<Vec<u32>, NoMemory>
    ensures length { IfOk result (λ made. length made.items ≡ limit) }
    ensures numbers { IfOk result (λ made. (i : ℕ) → i < limit
        → slice_index made.items i ≡ i + 1) }
{
    let mut numbers = Vec::with_capacity(alloc, limit as usize)?;
    for i in 0..limit {
        numbers.push(i + 1)?;
    }
    Ok(numbers)
}

#[cfg(test)]
mod tests {
    use super::*;

    #[test]
    fn slots_are_taken_and_given_back(rt: HostRuntime) {
        let mut free = Free::new(rt.alloc(), 3).expect(&rt, "memory");
        let first = free.take().expect(&rt, "a slot");
        let second = free.take().expect(&rt, "a slot");
        let third = free.take().expect(&rt, "a slot");
        assert!(rt; first != second && second != third && first != third);
        assert_eq!(rt; free.take(), Err(SnapFull { limit: 3 }));
        free.give(second);
        assert_eq!(rt; free.take(), Ok(second));
        assert_eq!(rt; free.take(), Err(SnapFull { limit: 3 }));
    }

    #[test]
    fn the_only_slot_is_used_again(rt: HostRuntime) {
        let mut free = Free::new(rt.alloc(), 1).expect(&rt, "memory");
        assert_eq!(rt; free.take(), Ok(1));
        assert_eq!(rt; free.take(), Err(SnapFull { limit: 1 }));
        free.give(1);
        assert_eq!(rt; free.take(), Ok(1));
    }
}
