// Where a pair stands in a node, or belongs below it.
ghost use Rattle.std.specs.Prelude.{◌≡◌, ◌<◌, IfSome, IfNone, Some, None, get_or, length, true, false};
ghost use Rattle.std.specs.List.{list_any};
ghost use Rattle.std.specs.Ordering.{is_eq};
ghost use Rattle.index_node.specs.Order.{entry_order as entry_order_of};
ghost use Rattle.index_node.specs.declared.entry.NodeEntry.{NodeEntry as Entry};
ghost use Rattle.index_node.specs.Node.{IsAscending};
ghost use Rattle.sorted_index_laws.specs.Changes.{pair_of, without_pair};
ghost use Rattle.sorted_index_laws.specs.Inner.Steps.{count_up_to as count_up_to_of, child_place as child_place_of};
ghost use Rattle.sorted_index_laws.specs.Inner.Growth.{count_below as count_below_of};

use index_node::NodeEntry;
use rdb_types::{Dbkey, Items, Value, row_order};
use std::cmp::Ordering;

fn pair_order(entry: &NodeEntry, key: &[Value], row: Dbkey) -> Ordering
    ensures { result ≡ entry_order_of entry.now (pair_of key.now row) }
{
    row_order(entry.key.as_slice(), key).then(entry.row.cmp(&row))
}

fn count_up_to(entries: &[NodeEntry], key: &[Value], row: Dbkey) -> usize
    ensures { result ≡ count_up_to_of (pair_of key.now row) entries.now }
{
    for (at, entry) in entries.iter().enumerate() {
        if pair_order(entry, key, row).is_gt() {
            return at;
        }
    }
    entries.len()
}

/// How many entries at the front are below a pair.
pub(crate) fn count_below(entries: &[NodeEntry], key: &[Value], row: Dbkey) -> usize
    ensures { result ≡ count_below_of (pair_of key.now row) entries.now }
{
    for (at, entry) in entries.iter().enumerate() {
        if !pair_order(entry, key, row).is_lt() {
            return at;
        }
    }
    entries.len()
}

/// The place of the child that a pair belongs below.
pub(crate) fn child_place(entries: &[NodeEntry], key: &[Value], row: Dbkey) -> usize
    ensures { result ≡ child_place_of (pair_of key.now row) entries.now }
{
    match entries {
        [] => 0,
        [_, behind @ ..] => count_up_to(behind, key, row),
    }
}

/// The child of the entry at a place.
pub(crate) fn child_of(entries: &[NodeEntry], at: usize) -> Option<Dbkey>
    ensures some { IfSome result (λ child. (at < length entries.now) × ((d : Entry) → (get_or entries.now at d).child ≡ Some child)) }
    ensures none { IfNone result (at < length entries.now → (d : Entry) → (get_or entries.now at d).child ≡ None) }
{
    if at < entries.len() {
        entries[at].child
    } else {
        None
    }
}

fn pair_place(entries: &[NodeEntry], key: &[Value], row: Dbkey) -> Option<usize>
    ensures some { IfSome result (λ at. (at < length entries.now) × ((d : Entry) → is_eq (entry_order_of (get_or entries.now at d) (pair_of key.now row)) ≡ true)) }
    ensures none { IfNone result (without_pair (pair_of key.now row) entries.now ≡ entries.now) }
{
    for (at, entry) in entries.iter().enumerate() {
        if pair_order(entry, key, row).is_eq() {
            return Some(at);
        }
    }
    None
}

/// Whether a pair is among entries.
pub(crate) fn has_pair(entries: &[NodeEntry], key: &[Value], row: Dbkey) -> bool
    ensures { result ≡ list_any (λ (p : Entry). is_eq (entry_order_of p (pair_of key.now row))) entries.now }
{
    entries
        .iter()
        .any(|entry| pair_order(entry, key, row).is_eq())
}

/// The entries of a leaf without a pair.
pub(crate) fn take_pair(
    mut entries: Items<NodeEntry>,
    key: &[Value],
    row: Dbkey,
) -> Items<NodeEntry>
    requires { IsAscending entries }
    ensures { result ≡ without_pair (pair_of key.now row) entries }
{
    if let Some(at) = pair_place(entries.as_slice(), key, row) {
        let _gone = entries.remove(at);
    }
    entries
}
