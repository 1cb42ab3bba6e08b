//! The order of turns that `--ORDER` names.
ghost use Rattle.std.specs.Prelude.{◌≡◌, ◌≤◌, All, IfOk};
ghost use Rattle.command_words.specs.Orders.{is_order as order, sessions_in};

use crate::options::number_in;
use rdb_types::{Items, NoMemory};
use std::alloc::Global;

/// The most entries that an order has.
const MOST_ENTRIES: usize = 1000;

/// Whether a list is an order of so many sessions: 1 to 1,000 of their numbers, with commas between.
pub fn is_order(sessions: u32, list: &[u8]) -> bool
    ensures { result ≡ order sessions list.now }
{
    list.split(|b| *b == b',').enumerate().all(|(at, part)| at < MOST_ENTRIES
        && number_in(1, sessions, part).is_some())
}

/// The sessions that an order names. Err where memory is wanted.
pub fn sessions_of(alloc: Global, sessions: u32, list: &[u8]) -> Result<Items<u32>, NoMemory>
    ensures value { IfOk result (λ order. order ≡ sessions_in sessions list.now) }
    ensures range { IfOk result (λ order. All (λ s. (1 ≤ s) × (s ≤ sessions)) order) }
{
    let order = list
        .split(|b| *b == b',')
        .filter_map(|part| number_in(1, sessions, part))
        .collect(alloc)?;
    Ok(Items::from_vec(order))
}
