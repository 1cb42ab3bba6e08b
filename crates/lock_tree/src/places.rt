//! Places in the lock table that are kept for the ends of open wants.

ghost use Rattle.std.specs.Prelude.{◌≡◌, ◌<◌, ◌≤◌, ◌^◌};
ghost use Rattle.lock_tree_laws.specs.Forest.{party_of, places_of as places_of_party, places_kept as places_of_all};

use crate::owners::MAX_OWNERS;
use indexmap::IndexMap;
use lock_needs::Party;

// How many places the end of the owner's open want may take. A list of needs is far shorter than all memory.
fn places_of(parties: &IndexMap<u32, Party>, owner: u32) -> usize
    ensures value { result ≡ places_of_party (party_of parties.now.entries owner) }
    ensures small { result < 2 ^ 59 }
{
    match parties.get(&owner) {
        Some(party) if party.opened().is_some() => party.needs().len(),
        _ => 0,
    }
}

// How many the ends of all open wants may take.
pub(crate) fn places_kept(parties: &IndexMap<u32, Party>) -> usize
    ensures value { result ≡ places_of_all parties.now.entries }
    ensures small { result ≤ 2 ^ 63 }
{
    let mut places: usize = 0;
    for owner in 1..MAX_OWNERS + 1 {
        places += places_of(parties, owner);
    }
    places
}
