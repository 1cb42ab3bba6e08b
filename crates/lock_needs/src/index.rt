//! What the needs of an owner ask of each node, kept by node, so that no look at a node goes over the needs.

ghost use Rattle.std.specs.Prelude.{◌≡◌, ◌<◌, ◌≤◌, ◌+◌, ◌++◌, ◌∷◌, [], ◌&&◌, false, List};
ghost use Rattle.indexmap.specs.IndexMap.{spare};
ghost use Rattle.lock_needs.specs.declared.need.Need.{Need};
ghost use Rattle.lock_needs.specs.Nodes.{same_node, is_above as level_contains, on_way as way_at};
ghost use Rattle.vms_queues.specs.Modes.{intent as intent_of};
ghost use Rattle.lock_needs.specs.Index.{asks_at, IsIndexOf, AddsBelow, AddsOn};

use crate::need::Need;
use crate::node::{is_above, on_way};
use indexmap::IndexMap;
use rdb_types::{Level, Node};
use vms_queues::{Mode, intent, join};

/// How many nodes are on the way of a need, its own with them.
pub(crate) const WAY_NODES: usize = 4;

/// What needs ask of a node: the intents of those below it, joined, and the modes of those on it, joined.
#[derive(Clone, Copy, Debug, PartialEq, Eq, Drop)]
pub(crate) struct Asks {
    pub(crate) below: Mode,
    pub(crate) on: Mode,
}

// What the needs ask of the node.
pub(crate) fn asks_of(index: &IndexMap<Node, Asks>, node: Node) -> Asks
    ensures { result ≡ asks_at index.now.entries node }
{
    match index.get(&node) {
        Some(asks) => *asks,
        None => Asks {
            below: Mode::NL,
            on: Mode::NL,
        },
    }
}

// Sets what is asked of the node, for which there is room.
fn put(index: &mut IndexMap<Node, Asks>, node: Node, asks: Asks)
    requires room { 0 < spare index.old }

    ensures here { asks_at index.new.entries node ≡ asks }
    ensures elsewhere { (n : Node) → same_node n node ≡ false → asks_at index.new.entries n ≡ asks_at index.old.entries n }
    ensures spare { spare index.old ≤ spare index.new + 1 }
{
    let Ok(_) = index.insert(node, asks) else {
        unreachable!();
    };
}

// Joins a mode to what needs on the node ask.
fn add_on(index: &mut IndexMap<Node, Asks>, node: Node, mode: Mode)
    requires room { 0 < spare index.old }

    ensures adds { AddsOn index.old.entries index.new.entries node mode }
    ensures spare { spare index.old ≤ spare index.new + 1 }
{
    let asks = asks_of(index, node);
    put(
        index,
        node,
        Asks {
            below: asks.below,
            on: join(asks.on, mode),
        },
    );
}

// Joins a mode to what needs below the node of this level on the way ask there, if the level is above the node's.
fn add_above(index: &mut IndexMap<Node, Asks>, level: Level, node: Node, mode: Mode)
    requires room { 0 < spare index.old }

    ensures adds { AddsBelow index.old.entries index.new.entries (λ n. level_contains level node.level && same_node n (way_at level node)) mode }
    ensures spare { spare index.old ≤ spare index.new + 1 }
{
    if is_above(level, node.level) {
        let at = on_way(level, node);
        let asks = asks_of(index, at);
        put(
            index,
            at,
            Asks {
                below: join(asks.below, mode),
                on: asks.on,
            },
        );
    }
}

// Takes in another need, for whose way there is room.
pub(crate) fn add_need(index: &mut IndexMap<Node, Asks>, need: Need)
    requires room { 4 ≤ spare index.old }

    ensures { (needs : List Need) → IsIndexOf needs index.old.entries → IsIndexOf (needs ++ need ∷ []) index.new.entries }
{
    add_on(index, need.node, need.mode);
    add_above(index, Level::Area, need.node, intent(need.mode));
    add_above(index, Level::Range, need.node, intent(need.mode));
    add_above(index, Level::Page, need.node, intent(need.mode));
}
