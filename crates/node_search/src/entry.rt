// Entries of nodes where they lie.
ghost use Rattle.std.specs.Prelude.{◌≡◌, ◌≤◌, ◌+◌, ◌↔◌, ℕ, length, IfSome, IfNone, IsSome};
ghost use Rattle.slot_fields.specs.Fields.{HasPart};
ghost use Rattle.record_format.specs.Lists.{StandsAt};
ghost use Rattle.index_node.specs.declared.entry.NodeEntry.{NodeEntry as Entry};
ghost use Rattle.index_node.specs.Node.{child_fields, child_bytes, entry_fields, IsEntry};
ghost use Rattle.index_node.specs.Order.{entry_order as entry_order_of};
ghost use Rattle.node_search.specs.Entries.{Shows};

use crate::key::{BorrowedKey, are_values, keys_order};
use rdb_types::Dbkey;
use record_format::dbkey_at;
use slot_fields::u8_at;
use std::cmp::Ordering;

/// An entry of which the key's bytes stay where they are.
#[derive(Clone, Copy)]
pub struct BorrowedEntry<'a> {
    pub key: BorrowedKey<'a>,
    pub row: Dbkey,
    pub child: Option<Dbkey>,
}

/// An entry that stands in bytes, and the place behind it.
#[derive(Clone, Copy)]
pub struct FoundEntry<'a> {
    pub entry: BorrowedEntry<'a>,
    pub end: usize,
}

fn child_size(level: u8) -> usize
    ensures { result ≡ child_bytes level }
{
    if level == 0 { 0 } else { 10 }
}

fn child_at(bytes: &[u8], at: usize, level: u8) -> Option<Dbkey>
    requires { at + child_bytes level ≤ length bytes.now }
    ensures found { HasPart at (child_fields result) bytes.now }
    ensures inner { IsSome result ↔ (1 ≤ level) }
{
    if level == 0 {
        None
    } else {
        Some(dbkey_at(bytes, at))
    }
}

/// The entry of a node of this level that stands at a place. None is answered only where none stands there.
pub(crate) fn entry_at(bytes: &[u8], at: usize, level: u8) -> Option<FoundEntry<'_>>
    ensures found { IfSome result (λ found. (entry : Entry) × (StandsAt entry_fields (IsEntry level) bytes.now at entry found.end × Shows found.entry entry)) }
    ensures none { IfNone result ((entry : _) (end : ℕ) → StandsAt entry_fields (IsEntry level) bytes.now at entry end → ⊥) }
{
    if at >= bytes.len() {
        return None;
    }
    let key_size = u8_at(bytes, at) as usize;
    let behind = 10 + child_size(level);
    if key_size > 120 || bytes.len() - at - 1 < key_size + behind {
        return None;
    }
    let key_end = at + 1 + key_size;
    let key = BorrowedKey {
        bytes: &bytes[..key_end],
        from: at + 1,
    };
    if !are_values(key.bytes, key.from) {
        return None;
    }
    let entry = BorrowedEntry {
        key,
        row: dbkey_at(bytes, key_end),
        child: child_at(bytes, key_end + 10, level),
    };
    Some(FoundEntry {
        entry,
        end: key_end + behind,
    })
}

/// The order of entries: by their keys, and equal keys by their rows.
pub(crate) fn entry_order(a: BorrowedEntry<'_>, b: BorrowedEntry<'_>) -> Ordering
    ensures { (entry other : _) → Shows a.entry entry → Shows b.entry other → result ≡ entry_order_of entry other }
{
    keys_order(a.key, b.key).then(a.row.cmp(&b.row))
}
