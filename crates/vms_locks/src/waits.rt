ghost use Rattle.std.specs.Prelude.{◌≡◌, ◌==◌, ◌&&◌, IsTrue, ◌↔◌};
ghost use Rattle.vms_queues.specs.Waits.{waits};
ghost use Rattle.vms_locks.specs.Table.{table_of, queues_at, requested, WaitsIn};
ghost use Rattle.vms_locks.specs.Places.{place_of, KnowsPlaces};
ghost use Rattle.vms_locks.specs.Search.{WaitsAsked};

use crate::places::Places;
use indexmap::IndexMap;
use rdb_types::Node;
use vms_queues::{Mode, Resource};

// A request that isn't queued yet.
#[derive(Clone, Copy)]
pub(crate) struct Asked {
    pub(crate) owner: u32,
    pub(crate) node: Node,
    pub(crate) mode: Mode,
}

// Whether the first owner waits for the second at the node.
fn waits_at(table: &IndexMap<Node, Resource>, node: Node, waiter: u32, blocker: u32) -> bool
    ensures { result ≡ waits (queues_at (table_of table.now) node) waiter blocker }
{
    match table.get(&node) {
        Some(resource) => resource.waits_for(waiter, blocker),
        None => false,
    }
}

// Whether the first owner waits for the second. It does at most at the node where it has a queued request.
pub(crate) fn waits_for(
    table: &IndexMap<Node, Resource>,
    places: &Places,
    waiter: u32,
    blocker: u32,
) -> bool
    requires { KnowsPlaces (place_of places.now) (queues_at (table_of table.now)) }
    ensures { IsTrue result ↔ WaitsIn (queues_at (table_of table.now)) waiter blocker }
{
    match places.of(waiter) {
        Some(node) => waits_at(table, node, waiter, blocker),
        None => false,
    }
}

// Whether the first owner would wait for the second at the resource if what is asked were queued there.
fn waits_with(resource: &Resource, asked: Asked, waiter: u32, blocker: u32) -> bool
    ensures { result ≡ waits (requested resource.now asked.owner asked.mode) waiter blocker }
{
    if resource.mode_of(asked.owner).is_some() {
        resource.waits_if_converting(asked.owner, asked.mode, waiter, blocker)
    } else {
        resource.waits_if_asking(asked.owner, asked.mode, waiter, blocker)
    }
}

// Whether the first owner would wait for the second at the node where it is asked.
#[tactic(auto, using(crate::proofs::Waiting::nobody_waits))]
fn waits_there(table: &IndexMap<Node, Resource>, asked: Asked, waiter: u32, blocker: u32) -> bool
    ensures { result ≡ waits (requested (queues_at (table_of table.now) asked.node) asked.owner asked.mode) waiter blocker }
{
    match table.get(&asked.node) {
        Some(resource) => waits_with(resource, asked, waiter, blocker),
        None => false,
    }
}

// Whether the first owner asks, and would wait for the second at the node where it does.
fn asker_waits(table: &IndexMap<Node, Resource>, asked: Asked, waiter: u32, blocker: u32) -> bool
    ensures { result ≡ (waiter == asked.owner && waits (requested (queues_at (table_of table.now) asked.node) asked.owner asked.mode) waiter blocker) }
{
    waiter == asked.owner && waits_there(table, asked, waiter, blocker)
}

// Whether the first owner would wait for the second if what is asked were queued.
pub(crate) fn would_wait(
    table: &IndexMap<Node, Resource>,
    places: &Places,
    asked: Asked,
    waiter: u32,
    blocker: u32,
) -> bool
    requires { KnowsPlaces (place_of places.now) (queues_at (table_of table.now)) }
    ensures { IsTrue result ↔ WaitsAsked (queues_at (table_of table.now)) asked waiter blocker }
{
    let Some(node) = places.of(waiter) else {
        return asker_waits(table, asked, waiter, blocker);
    };
    if node == asked.node {
        return waits_there(table, asked, waiter, blocker);
    }
    waits_at(table, node, waiter, blocker) || asker_waits(table, asked, waiter, blocker)
}
