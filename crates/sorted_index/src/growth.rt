// The lines of a child that has grown, and its node's entries then.
ghost use Rattle.std.specs.Prelude.{◌≡◌, ◌≤◌, ◌<◌, ◌+◌, true, false, length, drop, IfOk, IfErr};
ghost use Rattle.std.specs.List.{flat_map};
ghost use Rattle.slot_fields.specs.Fields.{size};
ghost use Rattle.index_node.specs.Node.{entry_fields};
ghost use Rattle.line_view.specs.declared.stop.Stop.TheVariants.{NoMemory};
ghost use Rattle.sorted_index_laws.specs.Changes.{goes_on};
ghost use Rattle.sorted_index_laws.specs.Inner.Growth.{IsGrown, bound as bound_of, unbound as unbound_of, lowered as lowered_of, is_up_to_own as is_up_to_own_of, WritesChild};

use crate::IndexStop;
use crate::removal::write_node;
use crate::splitting::{Halves, halve, put_in_order};
use crate::work::{Work, take_room};
use index_node::{IndexNode, NodeEntry, entries_size, entry_order};
use line_view::View;
use rdb_types::{Copied, Dbkey, Items, Row};
use std::alloc::Global;

/// The entry of a child whose pairs are at or above this entry.
pub(crate) fn bound(alloc: Global, entry: &NodeEntry, child: Dbkey) -> Result<NodeEntry, IndexStop>
    ensures ok { IfOk result (λ made. made ≡ bound_of entry.now child) }
    ensures err { IfErr result (λ stop. stop ≡ NoMemory) }
{
    Ok(NodeEntry {
        key: entry.key.copied(alloc)?,
        row: entry.row,
        child: Some(child),
    })
}

/// The first entry of a node, which bounds nothing, so it needs no key.
pub(crate) fn unbound(alloc: Global, entry: &NodeEntry, child: Dbkey) -> NodeEntry
    ensures { result ≡ unbound_of entry.now child }
{
    NodeEntry {
        key: Row::new(alloc),
        row: entry.row,
        child: Some(child),
    }
}

// Whether the pairs from this entry on are all past those of the child at a place.
fn is_past(entries: &[NodeEntry], at: usize, entry: &NodeEntry) -> bool
    requires { at < length entries.now }
    ensures { result ≡ goes_on entry.now (drop (at + 1) entries.now) }
{
    match &entries[at + 1..] {
        [] => false,
        [next, ..] => entry_order(next, entry).is_le(),
    }
}

// Whether the pairs below this entry are all before those of the child at a place.
fn is_up_to_own(entries: &[NodeEntry], at: usize, entry: &NodeEntry) -> bool
    requires { at < length entries.now }
    ensures { result ≡ is_up_to_own_of at entry.now (drop at entries.now) }
{
    if at == 0 {
        return false;
    }
    match &entries[at..] {
        [] => false,
        [own, ..] => entry_order(entry, own).is_le(),
    }
}

fn lower_first(
    alloc: Global,
    mut entries: Items<NodeEntry>,
    at: usize,
    low: &NodeEntry,
    child: Dbkey,
) -> Items<NodeEntry>
    requires { at < length entries }
    ensures { result ≡ lowered_of at (unbound_of low.now child) entries }
{
    if at == 0 {
        entries.set(0, unbound(alloc, low, child));
    }
    entries
}

/// Whether a node fits a line.
pub(crate) fn fits(node: &IndexNode) -> bool
    requires { IsGrown node.now }
    ensures yes { result ≡ true → size (flat_map entry_fields node.now.entries) ≤ 426 }
    ensures no { result ≡ false → 426 < size (flat_map entry_fields node.now.entries) }
{
    entries_size(node.level, node.entries.as_slice(), 426).is_some()
}

/// Writes the node of a child that has grown: on its line, or in halves on that line and a room, unless by the entries beside it one half can hold no pair. Gives the entries of the node above it.
pub(crate) fn write_child<V: View>(
    alloc: Global,
    view: &V,
    entries: Items<NodeEntry>,
    at: usize,
    child: Dbkey,
    grown: IndexNode,
    work: &mut Work,
) -> Result<Items<NodeEntry>, IndexStop>
    requires place { at < length entries }
    requires grown { IsGrown grown }
    requires rooms { work.old.rooms < 1000 }
    ensures writes { WritesChild (V.knows view.now) work.old.area entries at child grown work.old.rooms work.new.rooms work.old.writes work.new.writes result }
    ensures area { work.new.area ≡ work.old.area }
{
    if fits(&grown) {
        write_node(child, &grown, &mut work.writes)?;
        return Ok(entries);
    }
    let Halves { lower, upper } = halve(alloc, grown)?;
    let high = &upper.entries.as_slice()[0];
    if is_up_to_own(entries.as_slice(), at, high) {
        write_node(child, &upper, &mut work.writes)?;
        return Ok(entries);
    }
    if is_past(entries.as_slice(), at, high) {
        write_node(child, &lower, &mut work.writes)?;
        return Ok(entries);
    }
    let room = take_room(view, work)?;
    write_node(child, &lower, &mut work.writes)?;
    write_node(room, &upper, &mut work.writes)?;
    let entries = lower_first(alloc, entries, at, &lower.entries.as_slice()[0], child);
    put_in_order(alloc, entries, bound(alloc, high, room)?)
}
