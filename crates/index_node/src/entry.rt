// The entries of nodes.
ghost use Rattle.std.specs.Prelude.{◌≡◌, ◌≤◌, ◌<◌, ◌+◌, ◌^◌, ◌↔◌, ℕ, true, false, Some, length, take, drop, IfSome, IfNone, IfOk, IsSome};
ghost use Rattle.std.specs.List.{All};
ghost use Rattle.record_format.specs.slot_fields.Fields.{laid, size, Fit, HasPart};
ghost use Rattle.record_format.specs.Values.{values_fields, IsValue};
ghost use Rattle.record_format.specs.Lists.{StandsAt};
ghost use Rattle.index_node.specs.Node.{child_fields, child_bytes, entry_fields, IsEntry};

use record_format::{
    Dbkey, NoMemory, Row, are_storable, dbkey_at, put_dbkey, put_u8, put_values, read_values,
    u8_at, values_size,
};
use std::alloc::Global;

/// An entry of a node: a key, the Dbkey of a row that has it, and in an inner node the Dbkey of a child, whose entries are not below this one.
#[derive(Debug, Drop)]
pub struct NodeEntry {
    pub key: Row,
    pub row: Dbkey,
    pub child: Option<Dbkey>,
}

// An entry that was read, and the place behind its bytes.
#[derive(Drop)]
pub(crate) struct FoundEntry {
    pub entry: NodeEntry,
    pub end: usize,
}

/// Whether an entry may stand in a node of this level.
pub(crate) fn is_entry(level: u8, entry: &NodeEntry) -> bool
    ensures yes { result ≡ true → IsEntry level entry.now }
    ensures no { result ≡ false → IsEntry level entry.now → ⊥ }
{
    let key = entry.key.as_slice();
    are_storable(key) && values_size(key, 120).is_some() && entry.child.is_some() == (level > 0)
}

/// The bytes that an entry takes.
pub fn entry_size(entry: &NodeEntry) -> usize
    requires { size (values_fields entry.now.key) ≤ 120 }
    ensures value { result ≡ size (entry_fields entry.now) }
    ensures within { result ≤ 141 }
{
    let key = values_size(entry.key.as_slice(), 120).unwrap();
    match entry.child {
        None => key + 11,
        Some(_) => key + 21,
    }
}

fn put_child(slot: &mut [u8], at: usize, child: Option<Dbkey>) -> usize
    requires { at + size (child_fields child) ≤ length slot.old }
    ensures end { result ≡ at + size (child_fields child) }
    ensures front { take result slot.new ≡ laid (take at slot.old) (child_fields child) }
    ensures rest { drop result slot.new ≡ drop result slot.old }
    ensures fits { Fit (child_fields child) }
{
    match child {
        None => at,
        Some(child) => {
            put_dbkey(slot, at, child);
            at + 10
        }
    }
}

/// Writes an entry at a place, and gives the place behind it.
pub(crate) fn put_entry(slot: &mut [u8], at: usize, entry: &NodeEntry) -> usize
    requires room { at + size (entry_fields entry.now) ≤ length slot.old }
    requires small { length slot.old < 2 ^ 16 }
    requires key { All IsValue entry.now.key }
    requires short { size (values_fields entry.now.key) ≤ 120 }
    ensures end { result ≡ at + size (entry_fields entry.now) }
    ensures front { take result slot.new ≡ laid (take at slot.old) (entry_fields entry.now) }
    ensures rest { drop result slot.new ≡ drop result slot.old }
    ensures fits { Fit (entry_fields entry.now) }
{
    let key = entry.key.as_slice();
    put_u8(slot, at, values_size(key, 120).unwrap() as u8);
    let row = put_values(slot, at + 1, key);
    put_dbkey(slot, row, entry.row);
    put_child(slot, row + 10, entry.child)
}

fn child_size(level: u8) -> usize
    ensures { result ≡ child_bytes level }
{
    if level == 0 { 0 } else { 10 }
}

fn child_at(bytes: &[u8], at: usize, level: u8) -> Option<Dbkey>
    requires { at + child_bytes level ≤ length bytes.now }
    ensures found { HasPart at (child_fields result) bytes.now }
    ensures inner { IsSome result ↔ (1 ≤ level) }
{
    if level == 0 {
        None
    } else {
        Some(dbkey_at(bytes, at))
    }
}

/// The entry of a node of this level that stands at a place. None is answered only where none stands there.
pub(crate) fn entry_at(
    alloc: Global,
    bytes: &[u8],
    at: usize,
    level: u8,
) -> Result<Option<FoundEntry>, NoMemory>
    requires { at < length bytes.now }
    ensures found { IfOk result (λ read. IfSome read (λ found. StandsAt entry_fields (IsEntry level) bytes.now at found.entry found.end)) }
    ensures none { IfOk result (λ read. IfNone read ((entry : _) (end : ℕ) → StandsAt entry_fields (IsEntry level) bytes.now at entry end → ⊥)) }
{
    let key_size = u8_at(bytes, at) as usize;
    let behind = 10 + child_size(level);
    if key_size > 120 || bytes.len() - at - 1 < key_size + behind {
        return Ok(None);
    }
    let key_end = at + 1 + key_size;
    let Some(key) = read_values(alloc, &bytes[..key_end], at + 1)? else {
        return Ok(None);
    };
    Ok(Some(FoundEntry {
        entry: NodeEntry {
            key,
            row: dbkey_at(bytes, key_end),
            child: child_at(bytes, key_end + 10, level),
        },
        end: key_end + behind,
    }))
}
