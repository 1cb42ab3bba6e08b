// A pair put into an index.
ghost use Rattle.std.specs.Prelude.{◌≡◌, ◌≤◌, ◌<◌, ◌+◌, [], ◌∷◌, ℕ, IfOk, IfErr, OnOk};
ghost use Rattle.std.specs.List.{IsDistinct};
ghost use Rattle.std.specs.Ordering.{is_eq};
ghost use Rattle.rdb_types.specs.Order.{dbkey_order};
ghost use Rattle.line_view.specs.Knowledge.{Lines, Agrees};
ghost use Rattle.line_view.specs.declared.stop.Stop.TheVariants.{NoMemory};
ghost use Rattle.sorted_index_laws.specs.Tree.{Tree, node_of, pairs, IsIndex};
ghost use Rattle.sorted_index_laws.specs.Changes.{pair_of};
ghost use Rattle.sorted_index_laws.specs.Inner.Steps.{IsLaid};
ghost use Rattle.sorted_index_laws.specs.Insertion.{IsKey, IsNew, Inserts};
ghost use Rattle.sorted_index_laws.specs.Inner.Growth.{IsNodeKey, IsGrown, StandBelow, places_below, PutsIn, WritesRoot, Looks, with_new, bound as bound_of};

use crate::growth::{bound, fits, unbound, write_child};
use crate::nodes::{child_at, node_at};
use crate::places::{child_of, child_place, has_pair};
use crate::removal::write_node;
use crate::splitting::{Halves, halve, put_in_order};
use crate::work::{Work, take_room};
use crate::{Duplicate, IndexStop, find};
use index_node::{IndexNode, NodeEntry};
use line_view::{Stop, View, Writes};
use rdb_types::{Copied, Dbkey, Items, Row, Value};
use record_format::are_storable;
use std::alloc::Global;

fn key_of(alloc: Global, key: &[Value]) -> Result<Row, IndexStop>
    ensures ok { IfOk result (λ made. made ≡ key.now) }
    ensures err { IfErr result (λ stop. stop ≡ NoMemory) }
{
    let mut made = Row::new(alloc);
    for value in key {
        made.push(value.copied(alloc)?)?;
    }
    Ok(made)
}

// The entries of a leaf with a pair. One that is there already is left.
fn put_pair(
    alloc: Global,
    entries: Items<NodeEntry>,
    key: &[Value],
    row: Dbkey,
) -> Result<Items<NodeEntry>, IndexStop>
    ensures ok { IfOk result (λ all. all ≡ with_new (pair_of key.now row) entries) }
    ensures err { IfErr result (λ stop. stop ≡ NoMemory) }
{
    if has_pair(entries.as_slice(), key, row) {
        return Ok(entries);
    }
    let pair = NodeEntry {
        key: key_of(alloc, key)?,
        row,
        child: None,
    };
    put_in_order(alloc, entries, pair)
}

fn one_child(
    alloc: Global,
    key: &[Value],
    row: Dbkey,
    child: Dbkey,
) -> Result<Items<NodeEntry>, IndexStop>
    ensures ok { IfOk result (λ all. all ≡ bound_of (pair_of key.now row) child ∷ []) }
    ensures err { IfErr result (λ stop. stop ≡ NoMemory) }
{
    let mut entries = Items::new(alloc);
    entries.push(NodeEntry {
        key: key_of(alloc, key)?,
        row,
        child: Some(child),
    })?;
    Ok(entries)
}

// The node as it is with the pair below it. The lines below it are written, each node behind those below it.
fn put_below<V: View>(
    alloc: Global,
    view: &V,
    node: IndexNode,
    key: &[Value],
    row: Dbkey,
    work: &mut Work,
) -> Result<IndexNode, IndexStop>
    requires laid { IsLaid node }
    requires key { IsNodeKey key.now }
    requires rooms { work.old.rooms + node.level < 900 }
    ensures grown { IfOk result IsGrown }
    ensures small { node.entries ≡ [] → IfOk result IsLaid }
    ensures level { IfOk result (λ grown. grown.level ≡ node.level) }
    ensures rooms { OnOk result (work.new.rooms ≤ work.old.rooms + node.level) }
    ensures area { work.new.area ≡ work.old.area }
    ensures puts { (all : Lines) (level : ℕ) (tree : Tree level) → Agrees (V.knows view.now) all
        → StandBelow all work.old.area level tree → IsDistinct (λ a b. is_eq (dbkey_order a b)) (places_below level tree)
        → node_of level tree ≡ node → IsNew (pair_of key.now row) (pairs level tree)
        → PutsIn (V.knows view.now) all work.old.area (pair_of key.now row) level tree work.old.rooms work.new.rooms work.old.writes work.new.writes result }
{
    let IndexNode { level, entries } = node;
    if level == 0 {
        let entries = put_pair(alloc, entries, key, row)?;
        return Ok(IndexNode { level, entries });
    }
    let at = child_place(entries.as_slice(), key, row);
    let Some(child) = child_of(entries.as_slice(), at) else {
        let child = take_room(view, work)?;
        let none = IndexNode {
            level: level - 1,
            entries: Items::new(alloc),
        };
        let below = put_below(alloc, view, none, key, row, work)?;
        write_node(child, &below, &mut work.writes)?;
        let entries = one_child(alloc, key, row, child)?;
        return Ok(IndexNode { level, entries });
    };
    let below = child_at(alloc, view, child, level - 1)?;
    let grown = put_below(alloc, view, below, key, row, work)?;
    let entries = write_child(alloc, view, entries, at, child, grown, work)?;
    Ok(IndexNode { level, entries })
}

fn two_children(
    alloc: Global,
    low: NodeEntry,
    high: NodeEntry,
) -> Result<Items<NodeEntry>, IndexStop>
    ensures ok { IfOk result (λ all. all ≡ low ∷ high ∷ []) }
    ensures err { IfErr result (λ stop. stop ≡ NoMemory) }
{
    let mut entries = Items::new(alloc);
    entries.push(low)?;
    entries.push(high)?;
    Ok(entries)
}

// Writes a root that has grown. Where it is too long for a line its halves move to rooms, below two entries.
fn write_root<V: View>(
    alloc: Global,
    view: &V,
    root: Dbkey,
    grown: IndexNode,
    work: &mut Work,
) -> Result<(), IndexStop>
    requires grown { IsGrown grown }
    requires rooms { work.old.rooms < 900 }
    ensures { WritesRoot (V.knows view.now) work.old.area root grown work.old.rooms work.old.writes work.new.writes result }
{
    if fits(&grown) {
        return write_node(root, &grown, &mut work.writes);
    }
    if grown.level == 255 {
        return Err(Stop::Bad(root));
    }
    let level = grown.level + 1;
    let Halves { lower, upper } = halve(alloc, grown)?;
    let lower_at = take_room(view, work)?;
    let upper_at = take_room(view, work)?;
    write_node(lower_at, &lower, &mut work.writes)?;
    write_node(upper_at, &upper, &mut work.writes)?;
    let low = unbound(alloc, &lower.entries.as_slice()[0], lower_at);
    let high = bound(alloc, &upper.entries.as_slice()[0], upper_at)?;
    let entries = two_children(alloc, low, high)?;
    write_node(root, &IndexNode { level, entries }, &mut work.writes)
}

// Whether the index is unique and has the key.
fn is_taken<V: View>(
    alloc: Global,
    view: &V,
    root: Dbkey,
    key: &[Value],
    unique: bool,
) -> Result<bool, IndexStop>
    ensures { (all : Lines) (level : ℕ) (tree : Tree level) → Agrees (V.knows view.now) all
        → IsIndex all root level tree → Looks (V.knows view.now) unique key.now level tree result }
{
    if !unique {
        return Ok(false);
    }
    let rows = find(alloc, view, root, key)?;
    Ok(!rows.is_empty())
}

/// The writes that put a pair into an index, for a pair that isn't in it: the nodes on the way to it. A node that would be too long for a line is split in the middle of its bytes, and its upper half moves to a room of the index's area. The root keeps its line, and a root that would be too long moves its halves to two rooms. A unique index takes no second pair of a key.
pub fn insert<V: View>(
    alloc: Global,
    view: &V,
    root: Dbkey,
    key: &[Value],
    at: Dbkey,
    unique: bool,
) -> Result<Writes, IndexStop>
    requires { IsKey key.now }
    ensures answers { (all : Lines) (level : ℕ) (tree : Tree level) → Agrees (V.knows view.now) all
        → IsIndex all root level tree → IsNew (pair_of key.now at) (pairs level tree)
        → Inserts (V.knows view.now) all root (pair_of key.now at) unique level tree result }
{
    prove!(are_storable(key));
    if is_taken(alloc, view, root, key, unique)? {
        return Err(Stop::Own(Duplicate {}));
    }
    let node = node_at(alloc, view, root)?;
    let mut work = Work {
        area: root.area,
        writes: Writes::new(alloc),
        rooms: 0,
    };
    let grown = put_below(alloc, view, node, key, at, &mut work)?;
    write_root(alloc, view, root, grown, &mut work)?;
    Ok(work.writes)
}
