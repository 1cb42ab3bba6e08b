ghost use Rattle.std.specs.Prelude.{◌≡◌, ◌+◌, ◌≤◌, ◌<◌, ◌⊎◌, true, false};
ghost use Rattle.indexmap.specs.IndexMap.{spare};
ghost use Rattle.vms_queues.specs.Queues.{is_absent, is_grantable, has_owner, fits};
ghost use Rattle.vms_locks.specs.Table.{table_of, queues_at, capacity, is_listed, IsAwake, AddsNoWait, IsLive, HasNoEmpty, OnlyOwners};
ghost use Rattle.vms_queues.specs.Owners.{is_owner};
ghost use Rattle.vms_locks.specs.Places.{place_of, KnowsPlaces};
ghost use Rattle.vms_locks.specs.Answers.{Answers, asking, converting};

use crate::Enq;
use crate::places::Places;
use crate::review::review;
use crate::search::find_cycle;
use crate::table::{ask_at, conversion_blocker, convert_at, request_blocker};
use crate::waits::Asked;
use indexmap::IndexMap;
use rdb_types::Node;
use vms_queues::{Mode, Resource};

// Asks a mode at the node. Only a request that closes no cycle of waits is queued.
pub(crate) fn enq(
    table: &mut IndexMap<Node, Resource>,
    places: &mut Places,
    asked: Asked,
    wait: bool,
) -> Enq
    requires absent { is_absent asked.owner (queues_at (table_of table.old) asked.node) ≡ true }
    requires awake { IsAwake (queues_at (table_of table.old)) asked.owner ⊎ (is_grantable (queues_at (table_of table.old) asked.node) asked.owner asked.mode ≡ true) }
    requires owner { is_owner asked.owner ≡ true }
    requires room { is_listed (table_of table.old) asked.node ≡ false → 0 < spare table.old }
    requires live { IsLive (queues_at (table_of table.old)) }
    requires owners { OnlyOwners (queues_at (table_of table.old)) }
    requires known { KnowsPlaces (place_of places.old) (queues_at (table_of table.old)) }

    ensures answer { Answers (table_of table.old) (table_of table.new) asked.owner asked.node wait (asking (queues_at (table_of table.old) asked.node) asked.owner asked.mode) result }
    ensures owners { OnlyOwners (queues_at (table_of table.new)) }
    ensures known { KnowsPlaces (place_of places.new) (queues_at (table_of table.new)) }
    ensures used { HasNoEmpty (table_of table.old) → HasNoEmpty (table_of table.new) }
    ensures room { capacity (table_of table.old) ≤ capacity (table_of table.new) }
    ensures spare { spare table.old ≤ spare table.new + 1 }
    ensures kept { is_listed (table_of table.old) asked.node ≡ true → spare table.old ≤ spare table.new }
{
    let Some(blocker) = request_blocker(table, asked) else {
        ask_at(table, asked);
        return Enq::Granted;
    };
    if !wait {
        return Enq::NotQueued(blocker);
    }
    if let Some(cycle) = find_cycle(table, places, asked) {
        return Enq::Deadlock(cycle);
    }
    ask_at(table, asked);
    places.set(asked.owner, Some(asked.node));
    Enq::Asleep
}

// Asks another mode at the node. Only a conversion that closes no cycle of waits is queued.
pub(crate) fn convert(
    table: &mut IndexMap<Node, Resource>,
    places: &mut Places,
    asked: Asked,
    wait: bool,
) -> Enq
    requires granted { has_owner asked.owner (queues_at (table_of table.old) asked.node).granted ≡ true }
    requires once { has_owner asked.owner (queues_at (table_of table.old) asked.node).converting ≡ false }
    requires awake { IsAwake (queues_at (table_of table.old)) asked.owner ⊎ ((fits asked.owner asked.mode (queues_at (table_of table.old) asked.node).granted ≡ true) × AddsNoWait (queues_at (table_of table.old) asked.node) asked.owner asked.mode) }
    requires owner { is_owner asked.owner ≡ true }
    requires live { IsLive (queues_at (table_of table.old)) }
    requires owners { OnlyOwners (queues_at (table_of table.old)) }
    requires known { KnowsPlaces (place_of places.old) (queues_at (table_of table.old)) }

    ensures answer { Answers (table_of table.old) (table_of table.new) asked.owner asked.node wait (converting (queues_at (table_of table.old) asked.node) asked.owner asked.mode) result }
    ensures owners { OnlyOwners (queues_at (table_of table.new)) }
    ensures known { KnowsPlaces (place_of places.new) (queues_at (table_of table.new)) }
    ensures used { HasNoEmpty (table_of table.old) → HasNoEmpty (table_of table.new) }
    ensures room { capacity (table_of table.old) ≤ capacity (table_of table.new) }
    ensures spare { spare table.old ≤ spare table.new }
{
    let Some(blocker) = conversion_blocker(table, asked) else {
        convert_at(table, asked);
        review(table, places, asked.node);
        return Enq::Granted;
    };
    if !wait {
        return Enq::NotQueued(blocker);
    }
    if let Some(cycle) = find_cycle(table, places, asked) {
        return Enq::Deadlock(cycle);
    }
    convert_at(table, asked);
    places.set(asked.owner, Some(asked.node));
    Enq::Asleep
}
