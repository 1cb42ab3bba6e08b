// Of the slots in use those are given back that nobody wants.
ghost use Rattle.std.specs.Prelude.{◌≡◌, ◌≤◌, ◌<◌, ◌+◌, ℕ, length, slice_index};
ghost use Rattle.version_writing.specs.Slots.{GivesOne, IsTable, pusher_at};
ghost use Rattle.version_writing.specs.Wanting.{AreTaken, Sifts, IsUnwantedIn, with_pushers};

use crate::{MayWant, is_wanted};
use rdb_types::Tsn;
use snapshot_file::Stock;

// The transaction that pushed what a slot holds.
fn pusher_of(pushers: &[Tsn], slot: u32) -> Tsn
    requires first { 1 ≤ slot }
    requires last { slot ≤ length pushers.now }
    ensures { result ≡ pusher_at pushers.now slot }
{
    pushers[slot as usize - 1]
}

// Gives the slot in a place back, and puts the last one there of those in use.
fn give_at(stock: &mut Stock, pushers: &mut [Tsn], taken: &mut [u32], place: u32, last: u32)
    requires table { IsTable stock.old.slots pushers.old }
    requires taken { AreTaken stock.old.slots taken.old (last + 1) }
    requires place { place ≤ last }
    ensures table { IsTable stock.new.slots pushers.new }
    ensures taken { AreTaken stock.new.slots taken.new last }
    ensures gives { GivesOne (with_pushers stock.old pushers.old) (with_pushers stock.new pushers.new) (slice_index taken.old place) }
    ensures before { (i : ℕ) → i < place → slice_index taken.new i ≡ slice_index taken.old i }
{
    let slot = taken[place as usize];
    taken[place as usize] = taken[last as usize];
    stock.give(slot);
    pushers[slot as usize - 1] = Tsn { number: 0 };
}

/// Gives back all slots that hold what nobody wants. The answer is how many are left in use. It looks at each slot in use once.
pub(crate) fn sift<T: MayWant>(
    stock: &mut Stock,
    pushers: &mut [Tsn],
    taken: &mut [u32],
    count: u32,
    members: &[T],
) -> u32
    requires table { IsTable stock.old.slots pushers.old }
    requires taken { AreTaken stock.old.slots taken.old count }
    ensures table { IsTable stock.new.slots pushers.new }
    ensures taken { AreTaken stock.new.slots taken.new result }
    ensures gives { Sifts (IsUnwantedIn T.unwanted members.now) (with_pushers stock.old pushers.old) (with_pushers stock.new pushers.new) }
{
    let mut left = count;
    let mut place = 0;
    'sift: while place < left {
        let pusher = pusher_of(pushers, taken[place as usize]);
        if is_wanted(members, pusher) {
            place += 1;
        } else {
            left -= 1;
            give_at(stock, pushers, taken, place, left);
        }
    }
    left
}
