ghost use Rattle.std.specs.Prelude.{◌≡◌, ◌+◌, ◌<◌, ◌≤◌, true, false, is_none, length};
ghost use Rattle.indexmap.specs.IndexMap.{spare};
ghost use Rattle.vms_queues.specs.Queues.{HasRoomToAsk, HasRoomToConvert, is_absent, is_grantable, is_queued, has_owner, covers, fits, blockers, ask_blockers, first_of, after_ask, after_convert, after_weaken, after_release, after_cancel};
ghost use Rattle.vms_locks.specs.Table.{table_of, queues_at, capacity, is_listed, ChangesAt, HasNoEmpty};

use crate::waits::Asked;
use indexmap::IndexMap;
use rdb_types::Node;
use vms_queues::{Blockers, Mode, Resource};

// The first of those in the way of a new request; None where it would be granted at once.
pub(crate) fn request_blocker(table: &IndexMap<Node, Resource>, asked: Asked) -> Option<u32>
    ensures first { result ≡ first_of (ask_blockers (queues_at (table_of table.now) asked.node) asked.owner asked.mode) }
    ensures free { is_none result ≡ is_grantable (queues_at (table_of table.now) asked.node) asked.owner asked.mode }
{
    table
        .get(&asked.node)?
        .request_blocker(asked.owner, asked.mode)
}

// The first of those in the way of a conversion; None where it would be granted at once.
pub(crate) fn conversion_blocker(table: &IndexMap<Node, Resource>, asked: Asked) -> Option<u32>
    ensures first { result ≡ first_of (blockers asked.owner asked.mode (queues_at (table_of table.now) asked.node).granted) }
    ensures free { is_none result ≡ fits asked.owner asked.mode (queues_at (table_of table.now) asked.node).granted }
{
    table
        .get(&asked.node)?
        .conversion_blocker(asked.owner, asked.mode)
}

// The other owners that hold a mode at the node beside which this one can't be held.
pub(crate) fn holders_at(
    table: &IndexMap<Node, Resource>,
    owner: u32,
    node: Node,
    mode: Mode,
) -> Blockers
    requires { length (queues_at (table_of table.now) node).granted ≤ 16 }
    ensures { result ≡ blockers owner mode (queues_at (table_of table.now) node).granted }
{
    let Some(resource) = table.get(&node) else {
        return Blockers::new(*table.allocator());
    };
    match resource.holders_in_way(owner, mode) {
        Ok(holders) => holders,
        Err(_) => unreachable!(),
    }
}

// Whether the owner has a queued request at the node.
pub(crate) fn is_queued_at(table: &IndexMap<Node, Resource>, node: Node, owner: u32) -> bool
    ensures { result ≡ is_queued owner (queues_at (table_of table.now) node) }
{
    match table.get(&node) {
        Some(resource) => resource.is_queued(owner),
        None => false,
    }
}

// Queues or grants a request at a resource that has room for it.
fn ask_of(resource: &mut Resource, asked: Asked)
    requires absent { is_absent asked.owner resource.old ≡ true }
    requires room { HasRoomToAsk resource.old }

    ensures { resource.new ≡ after_ask resource.old asked.owner asked.mode }
{
    if resource.ask(asked.owner, asked.mode).is_err() {
        unreachable!();
    }
}

// Asks a mode at the node.
#[tactic(auto, using(std::proofs::lemmas::Map::Steps::set_value_same))]
pub(crate) fn ask_at(table: &mut IndexMap<Node, Resource>, asked: Asked)
    requires absent { is_absent asked.owner (queues_at (table_of table.old) asked.node) ≡ true }
    requires fits { HasRoomToAsk (queues_at (table_of table.old) asked.node) }
    requires room { is_listed (table_of table.old) asked.node ≡ false → 0 < spare table.old }

    ensures after { ChangesAt (table_of table.old) (table_of table.new) asked.node (after_ask (queues_at (table_of table.old) asked.node) asked.owner asked.mode) }
    ensures used { HasNoEmpty (table_of table.old) → HasNoEmpty (table_of table.new) }
    ensures room { capacity (table_of table.old) ≤ capacity (table_of table.new) }
    ensures spare { spare table.old ≤ spare table.new + 1 }
    ensures kept { is_listed (table_of table.old) asked.node ≡ true → spare table.old ≤ spare table.new }
{
    if let Some(resource) = table.get_mut(&asked.node) {
        ask_of(resource, asked);
        return;
    }
    let mut resource = Resource::new(*table.allocator());
    ask_of(&mut resource, asked);
    if table.insert(asked.node, resource).is_err() {
        unreachable!();
    }
}

// Queues or grants a conversion at a resource that has room for it.
fn convert_of(resource: &mut Resource, asked: Asked)
    requires granted { has_owner asked.owner resource.old.granted ≡ true }
    requires once { has_owner asked.owner resource.old.converting ≡ false }
    requires room { HasRoomToConvert resource.old }

    ensures { resource.new ≡ after_convert resource.old asked.owner asked.mode }
{
    if resource.convert(asked.owner, asked.mode).is_err() {
        unreachable!();
    }
}

// Asks another mode for the owner that holds one at the node.
#[tactic(auto, using(std::proofs::lemmas::Map::Steps::set_value_same, crate::proofs::Used::convert_used))]
pub(crate) fn convert_at(table: &mut IndexMap<Node, Resource>, asked: Asked)
    requires granted { has_owner asked.owner (queues_at (table_of table.old) asked.node).granted ≡ true }
    requires once { has_owner asked.owner (queues_at (table_of table.old) asked.node).converting ≡ false }
    requires fits { HasRoomToConvert (queues_at (table_of table.old) asked.node) }

    ensures after { ChangesAt (table_of table.old) (table_of table.new) asked.node (after_convert (queues_at (table_of table.old) asked.node) asked.owner asked.mode) }
    ensures used { HasNoEmpty (table_of table.old) → HasNoEmpty (table_of table.new) }
    ensures room { capacity (table_of table.old) ≤ capacity (table_of table.new) }
    ensures spare { spare table.old ≤ spare table.new }
{
    if let Some(resource) = table.get_mut(&asked.node) {
        convert_of(resource, asked);
    }
}

// Weakens the mode that the owner holds at the node.
#[tactic(auto, using(crate::proofs::Used::weaken_used))]
pub(crate) fn weaken_at(table: &mut IndexMap<Node, Resource>, owner: u32, node: Node, mode: Mode)
    requires { covers owner mode (queues_at (table_of table.old) node).granted ≡ true }

    ensures after { ChangesAt (table_of table.old) (table_of table.new) node (after_weaken (queues_at (table_of table.old) node) owner mode) }
    ensures used { HasNoEmpty (table_of table.old) → HasNoEmpty (table_of table.new) }
    ensures room { capacity (table_of table.old) ≤ capacity (table_of table.new) }
    ensures spare { spare table.old ≤ spare table.new }
{
    if let Some(resource) = table.get_mut(&node) {
        resource.weaken(owner, mode);
    }
}

// Gives up what the owner holds and asks at the node.
pub(crate) fn release_at(table: &mut IndexMap<Node, Resource>, owner: u32, node: Node)
    ensures after { ChangesAt (table_of table.old) (table_of table.new) node (after_release (queues_at (table_of table.old) node) owner) }
    ensures used { HasNoEmpty (table_of table.old) → HasNoEmpty (table_of table.new) }
    ensures spare { spare table.old ≤ spare table.new }
{
    if let Some(resource) = table.get_mut(&node) {
        resource.release(owner);
        if resource.is_empty() {
            let _emptied = table.swap_remove(&node);
        }
    }
}

// Takes the owner's queued request at the node out of its queue.
pub(crate) fn cancel_at(table: &mut IndexMap<Node, Resource>, owner: u32, node: Node)
    ensures after { ChangesAt (table_of table.old) (table_of table.new) node (after_cancel (queues_at (table_of table.old) node) owner) }
    ensures used { HasNoEmpty (table_of table.old) → HasNoEmpty (table_of table.new) }
    ensures spare { spare table.old ≤ spare table.new }
{
    if let Some(resource) = table.get_mut(&node) {
        resource.cancel(owner);
        if resource.is_empty() {
            let _emptied = table.swap_remove(&node);
        }
    }
}
