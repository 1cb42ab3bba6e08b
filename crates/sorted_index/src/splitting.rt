// Entries put at their place, and nodes in two parts.
ghost use Rattle.std.specs.Prelude.{◌≡◌, ◌≢◌, ◌≤◌, ◌<◌, ◌+◌, ◌++◌, [], length, take, reverse, IfOk, IfErr, OnOk};
ghost use Rattle.std.specs.List.{All, flat_map};
ghost use Rattle.slot_fields.specs.Fields.{size};
ghost use Rattle.record_format.specs.Values.{values_fields};
ghost use Rattle.index_node.specs.declared.entry.NodeEntry.{NodeEntry as Entry};
ghost use Rattle.index_node.specs.Node.{entry_fields};
ghost use Rattle.line_view.specs.declared.stop.Stop.TheVariants.{NoMemory};
ghost use Rattle.sorted_index_laws.specs.Changes.{with_pair};
ghost use Rattle.sorted_index_laws.specs.Inner.Steps.{IsLaid};
ghost use Rattle.sorted_index_laws.specs.Inner.Growth.{IsGrown};

use crate::IndexStop;
use crate::places::count_below;
use index_node::{IndexNode, NodeEntry, entries_size, entry_size};
use rdb_types::Items;
use std::alloc::Global;

/// A list in two parts.
#[derive(Drop)]
pub(crate) struct Parts {
    pub front: Items<NodeEntry>,
    pub rest: Items<NodeEntry>,
}

/// A node in two parts.
#[derive(Drop)]
pub(crate) struct Halves {
    pub lower: IndexNode,
    pub upper: IndexNode,
}

// The entries in the opposite order.
fn turn(alloc: Global, mut entries: Items<NodeEntry>) -> Result<Items<NodeEntry>, IndexStop>
    ensures ok { IfOk result (λ turned. turned ≡ reverse entries) }
    ensures err { IfErr result (λ stop. stop ≡ NoMemory) }
{
    let mut turned = Items::new(alloc);
    while let Some(entry) = entries.pop() {
        turned.push(entry)?;
    }
    Ok(turned)
}

fn split_off(alloc: Global, mut entries: Items<NodeEntry>, at: usize) -> Result<Parts, IndexStop>
    requires { at ≤ length entries }
    ensures ok { IfOk result (λ parts. (parts.front ++ parts.rest ≡ entries) × (length parts.front ≡ at)) }
    ensures err { IfErr result (λ stop. stop ≡ NoMemory) }
{
    let mut behind = Items::new(alloc);
    while at < entries.len() {
        if let Some(last) = entries.pop() {
            behind.push(last)?;
        }
    }
    let rest = turn(alloc, behind)?;
    Ok(Parts {
        front: entries,
        rest,
    })
}

/// The entries with this one at its place.
pub(crate) fn put_in_order(
    alloc: Global,
    entries: Items<NodeEntry>,
    entry: NodeEntry,
) -> Result<Items<NodeEntry>, IndexStop>
    ensures ok { IfOk result (λ all. all ≡ with_pair entry entries) }
    ensures err { IfErr result (λ stop. stop ≡ NoMemory) }
{
    let at = count_below(entries.as_slice(), entry.key.as_slice(), entry.row);
    let Parts { mut front, rest } = split_off(alloc, entries, at)?;
    front.push(entry)?;
    front.append(rest)?;
    Ok(front)
}

// The place behind the longest front of at most so many bytes.
fn place_behind(entries: &[NodeEntry], limit: usize) -> usize
    requires { All (λ (e : Entry). size (values_fields e.key) ≤ 120) entries.now }
    ensures within { result ≤ length entries.now }
    ensures front { size (flat_map entry_fields (take result entries.now)) ≤ limit }
    ensures most { result < length entries.now → limit < size (flat_map entry_fields (take result entries.now)) + 141 }
{
    let mut bytes = 0;
    for (at, entry) in entries.iter().enumerate() {
        let more = entry_size(entry);
        if limit - bytes < more {
            return at;
        }
        bytes += more;
    }
    entries.len()
}

/// A node that is too long for a line, in the middle of its bytes.
pub(crate) fn halve(alloc: Global, node: IndexNode) -> Result<Halves, IndexStop>
    requires grown { IsGrown node }
    requires long { 426 < size (flat_map entry_fields node.entries) }
    ensures levels { IfOk result (λ halves. (halves.lower.level ≡ node.level) × (halves.upper.level ≡ node.level)) }
    ensures entries { IfOk result (λ halves. halves.lower.entries ++ halves.upper.entries ≡ node.entries) }
    ensures some { IfOk result (λ halves. (halves.lower.entries ≢ []) × (halves.upper.entries ≢ [])) }
    ensures laid { IfOk result (λ halves. IsLaid halves.lower × IsLaid halves.upper) }
    ensures err { IfErr result (λ stop. stop ≡ NoMemory) }
{
    let IndexNode { level, entries } = node;
    let bytes = entries_size(level, entries.as_slice(), 567).unwrap();
    let at = place_behind(entries.as_slice(), bytes / 2);
    let Parts { front, rest } = split_off(alloc, entries, at)?;
    Ok(Halves {
        lower: IndexNode {
            level,
            entries: front,
        },
        upper: IndexNode {
            level,
            entries: rest,
        },
    })
}
