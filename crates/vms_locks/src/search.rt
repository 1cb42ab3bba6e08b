ghost use Rattle.std.specs.Prelude.{◌≡◌, ◌≢◌, ℕ, ◌<◌, ◌≤◌, ◌++◌, ◌∷◌, [], true, false, List, None, length, slice_index_or, IfSome, IfNone};
ghost use Rattle.smallvec.specs.SmallVec.{small_vec_len};
ghost use Rattle.vms_queues.specs.Owners.{is_owner};
ghost use Rattle.vms_locks.specs.Walks.{IsCycle, IsOnNoCycle};
ghost use Rattle.vms_locks.specs.Table.{table_of, queues_at};
ghost use Rattle.vms_locks.specs.Places.{place_of, KnowsPlaces};
ghost use Rattle.vms_locks.specs.Search.{WaitsAsked, is_left, LeadsBack, IsWayBack};

use crate::Cycle;
use crate::places::Places;
use crate::waits::{Asked, would_wait};
use indexmap::IndexMap;
use rdb_types::Node;
use smallvec::SmallVec;
use std::alloc::Global;
use vms_queues::Resource;

// An owner from whom the searched one is reached, and the place of the next on the way.
#[derive(Clone, Copy, Default, Drop)]
pub(crate) struct Reached {
    pub(crate) owner: u32,
    pub(crate) next: usize,
}

// All owners.
fn all_owners(alloc: Global) -> SmallVec<u32, 16, Global>
    ensures len { small_vec_len result ≡ 16 }
    ensures all { (owner : ℕ) → is_owner owner ≡ true → is_left result.items owner ≡ true }
{
    let mut owners = SmallVec::new(alloc);
    for owner in 1..17 {
        owners.push_reserved(owner);
    }
    owners
}

// The place of one of those left that would wait for the blocker if what is asked were queued.
fn find_waiter(
    table: &IndexMap<Node, Resource>,
    places: &Places,
    asked: Asked,
    left: &[u32],
    blocker: u32,
) -> Option<usize>
    requires { KnowsPlaces (place_of places.now) (queues_at (table_of table.now)) }

    ensures inside { IfSome result (λ at. at < length left.now) }
    ensures waits { IfSome result (λ at. WaitsAsked (queues_at (table_of table.now)) asked (slice_index_or left.now at 0) blocker) }
    ensures none { result ≡ None → (a : ℕ) → is_left left.now a ≡ true → WaitsAsked (queues_at (table_of table.now)) asked a blocker → ⊥ }
{
    for (at, waiter) in left.iter().enumerate() {
        if would_wait(table, places, asked, *waiter, blocker) {
            return Some(at);
        }
    }
    None
}

// The owner, those on the way back from the place, and the owner again.
fn trace(alloc: Global, reached: &[Reached], owner: u32, from: usize) -> Cycle
    requires inside { from < length reached.now }
    requires short { from < 16 }
    requires back { LeadsBack reached.now }
    ensures { (over : List ℕ) × (result ≡ owner ∷ (over ++ owner ∷ [])) × IsWayBack reached.now from over }
{
    let mut owners = SmallVec::new(alloc);
    owners.push_reserved(owner);
    let mut at = from;
    while at > 0 {
        owners.push_reserved(reached[at].owner);
        at = reached[at].next;
    }
    owners.push_reserved(owner);
    Cycle::new(owners)
}

// A cycle of waits through the owner that asks, if what it asks were queued; None exactly where there is none. It is sought
// backwards: each turn takes an owner that would wait for one of those from whom the asking owner is reached.
pub(crate) fn find_cycle(
    table: &IndexMap<Node, Resource>,
    places: &Places,
    asked: Asked,
) -> Option<Cycle>
    requires known { KnowsPlaces (place_of places.now) (queues_at (table_of table.now)) }
    requires owner { is_owner asked.owner ≡ true }

    ensures cycle { IfSome result (IsCycle (WaitsAsked (queues_at (table_of table.now)) asked) asked.owner) }
    ensures none { IfNone result (IsOnNoCycle (WaitsAsked (queues_at (table_of table.now)) asked) asked.owner) }
{
    let alloc = *table.allocator();
    let mut left = all_owners(alloc);
    let mut reached: SmallVec<Reached, 17, Global> = SmallVec::new(alloc);
    reached.push_reserved(Reached {
        owner: asked.owner,
        next: 0,
    });
    let mut place: usize = 0;
    while place < reached.len() {
        let blocker = reached.as_slice()[place].owner;
        let Some(at) = find_waiter(table, places, asked, left.as_slice(), blocker) else {
            place += 1;
            continue;
        };
        let waiter = left.remove(at);
        if waiter == asked.owner {
            return Some(trace(alloc, reached.as_slice(), waiter, place));
        }
        reached.push_reserved(Reached {
            owner: waiter,
            next: place,
        });
    }
    None
}
