// Nodes.
ghost use Rattle.std.specs.Prelude.{◌≡◌, ◌≤◌, ◌<◌, ◌+◌, ◌^◌, ◌↔◌, ℕ, List, true, false, Some, length, take, drop, IfSome, IfNone, IfOk, IsErr};
ghost use Rattle.std.specs.List.{All, flat_map};
ghost use Rattle.record_format.specs.slot_fields.Fields.{laid, size, Fit};
ghost use Rattle.std.specs.Ordering.{is_lt};
ghost use Rattle.record_format.specs.Values.{AreBytes};
ghost use Rattle.record_format.specs.Lists.{AreListed};
ghost use Rattle.index_node.specs.Order.{entry_order as entry_order_of};
ghost use Rattle.index_node.specs.Node.{entry_fields, node_fields, IsEntry, IsAscending, IsAllowedNode, IsNode};

use crate::entry::{NodeEntry, entry_at, entry_size, is_entry, put_entry};
use crate::order::entry_order;
use record_format::{
    Image, Items, NoMemory, TooLong, has_zeros, put_u8, put_u16, put_zeros, u8_at, u16_at,
};
use std::alloc::Global;

/// A node of a sorted index. Level 0 is that of the leaves; the entries are in ascending order by their keys, and those of equal keys by their rows.
#[derive(Debug, Drop)]
pub struct IndexNode {
    pub level: u8,
    pub entries: Items<NodeEntry>,
}

fn precedes(a: &NodeEntry, b: &NodeEntry) -> bool
    ensures { result ≡ is_lt (entry_order_of a.now b.now) }
{
    entry_order(a, b).is_lt()
}

fn is_ascending(entries: &[NodeEntry]) -> bool
    ensures yes { result ≡ true → IsAscending entries.now }
    ensures no { result ≡ false → IsAscending entries.now → ⊥ }
{
    for next in 1..entries.len() {
        if !precedes(&entries[next - 1], &entries[next]) {
            return false;
        }
    }
    true
}

/// Whether a node may be laid out: its entries are of its level, with keys of at most 120 bytes, and in ascending order.
pub fn is_allowed_node(node: &IndexNode) -> bool
    ensures yes { result ≡ true → IsAllowedNode node.now }
    ensures no { result ≡ false → IsAllowedNode node.now → ⊥ }
{
    let level = node.level;
    let entries = node.entries.as_slice();
    entries.iter().all(|entry| is_entry(level, entry)) && is_ascending(entries)
}

/// The bytes that entries take, or None where they are more than the limit.
pub fn entries_size(level: u8, entries: &[NodeEntry], limit: usize) -> Option<usize>
    requires { All (IsEntry level) entries.now }
    ensures value { IfSome result (λ bytes. bytes ≡ size (flat_map entry_fields entries.now)) }
    ensures within { IfSome result (λ bytes. bytes ≤ limit) }
    ensures none { IfNone result (limit < size (flat_map entry_fields entries.now)) }
{
    let mut bytes = 0;
    for entry in entries {
        let more = entry_size(entry);
        if limit - bytes < more {
            return None;
        }
        bytes += more;
    }
    Some(bytes)
}

fn put_entries(slot: &mut [u8], at: usize, level: u8, entries: &[NodeEntry]) -> usize
    requires room { at + size (flat_map entry_fields entries.now) ≤ length slot.old }
    requires small { length slot.old < 2 ^ 16 }
    requires entries { All (IsEntry level) entries.now }
    ensures end { result ≡ at + size (flat_map entry_fields entries.now) }
    ensures front { take result slot.new ≡ laid (take at slot.old) (flat_map entry_fields entries.now) }
    ensures fits { Fit (flat_map entry_fields entries.now) }
{
    let mut end = at;
    for entry in entries {
        end = put_entry(slot, end, entry);
    }
    end
}

/// The image of a node: its level in 1 byte, the count of its entries in 2 bytes, a zero, and its entries. It is refused where it would have more than 430 bytes.
pub fn put_node(node: &IndexNode) -> Result<Image, TooLong>
    requires { IsAllowedNode node.now }
    ensures image { IfOk result (λ image. IsNode image node.now) }
    ensures too_long { IsErr result ↔ (430 < size (node_fields node.now)) }
{
    let level = node.level;
    let entries = node.entries.as_slice();
    if entries_size(level, entries, 426).is_none() {
        return Err(TooLong {});
    }
    let mut slot = [0; 430];
    put_u8(&mut slot, 0, level);
    put_u16(&mut slot, 1, entries.len() as u16);
    put_zeros(&mut slot, 3, 1);
    let end = put_entries(&mut slot, 4, level, entries);
    Ok(Image::from_bytes(&slot[..end]))
}

fn read_entries(
    alloc: Global,
    bytes: &[u8],
    from: usize,
    level: u8,
) -> Result<Option<Items<NodeEntry>>, NoMemory>
    requires { from ≤ length bytes.now }
    ensures found { IfOk result (λ read. IfSome read (AreListed entry_fields (IsEntry level) bytes.now from)) }
    ensures none { IfOk result (λ read. IfNone read ((entries : _) → AreListed entry_fields (IsEntry level) bytes.now from entries → ⊥)) }
    ensures again { (entries : _) → AreListed entry_fields (IsEntry level) bytes.now from entries → IfOk result (λ read. read ≡ Some entries) }
{
    let mut entries = Items::new(alloc);
    let mut at = from;
    while at < bytes.len() {
        let Some(found) = entry_at(alloc, bytes, at, level)? else {
            return Ok(None);
        };
        at = found.end;
        entries.push(found.entry)?;
    }
    Ok(Some(entries))
}

/// The node that bytes are the image of. None is answered only where they are none.
pub fn read_node(alloc: Global, bytes: &[u8]) -> Result<Option<IndexNode>, NoMemory>
    ensures found { IfOk result (λ read. IfSome read (IsNode bytes.now)) }
    ensures none { IfOk result (λ read. IfNone read ((node : _) → IsNode bytes.now node → ⊥)) }

    // A node that was laid out is read again.
    ensures again { (node : _) → IsNode bytes.now node → IfOk result (λ read. read ≡ Some node) }
{
    if bytes.len() < 4 || bytes.len() > 430 || !has_zeros(bytes, 3, 1) {
        return Ok(None);
    }
    let level = u8_at(bytes, 0);
    let count = u16_at(bytes, 1);
    let Some(entries) = read_entries(alloc, bytes, 4, level)? else {
        return Ok(None);
    };
    if entries.len() != count as usize || !is_ascending(entries.as_slice()) {
        return Ok(None);
    }
    Ok(Some(IndexNode { level, entries }))
}

/// Bytes are the image of one node at most.
pub fn one_node()
    ensures { (bytes : List ℕ) (a b : _) → IsNode bytes a → IsNode bytes b → a ≡ b }
{}

/// A node has one image at most.
pub fn one_image()
    ensures { (a b : List ℕ) (node : _) → AreBytes a → AreBytes b → IsNode a node → IsNode b node → a ≡ b }
{}
