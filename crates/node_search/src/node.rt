// Nodes where they lie.
ghost use Rattle.std.specs.Prelude.{◌≡◌, ◌≤◌, ◌<◌, ℕ, List, ◌∷◌, Some, true, length, IfSome, IfNone};
ghost use Rattle.std.specs.Ordering.{is_lt};
ghost use Rattle.record_format.specs.Lists.{AreListed};
ghost use Rattle.index_node.specs.declared.entry.NodeEntry.{NodeEntry as Entry};
ghost use Rattle.index_node.specs.declared.node.IndexNode.{IndexNode as Node};
ghost use Rattle.index_node.specs.Node.{entry_fields, IsEntry, IsAscending, IsNode};
ghost use Rattle.index_node.specs.Order.{entry_order as entry_order_of};
ghost use Rattle.node_search.specs.Entries.{Shows, Begins};
ghost use Rattle.node_search.specs.Nodes.{Holds};

use crate::entry::{BorrowedEntry, FoundEntry, entry_at, entry_order};
use slot_fields::{has_zeros, u8_at, u16_at};

/// A node whose bytes stay where they are.
#[derive(Clone, Copy)]
pub struct BorrowedNode<'a> {
    pub bytes: &'a [u8],
    pub level: u8,
}

// Whether an entry is above the one before it, if there is one.
fn is_in_order(before: Option<BorrowedEntry<'_>>, next: BorrowedEntry<'_>) -> bool
    ensures first { IfNone before.entry (result ≡ true) }
    ensures later { IfSome before.entry (λ own. (entry other : _) → Shows own entry → Shows next.entry other → result ≡ is_lt (entry_order_of entry other)) }
{
    match before {
        None => true,
        Some(before) => entry_order(before, next).is_lt(),
    }
}

// How many entries of a node of this level bytes are from a place on, where they are in ascending order up to the end.
fn count_entries(bytes: &[u8], from: usize, level: u8) -> Option<usize>
    requires { from ≤ length bytes.now }
    ensures found { IfSome result (λ count. (entries : List Entry) × (AreListed entry_fields (IsEntry level) bytes.now from entries × IsAscending entries × (length entries ≡ count))) }
    ensures none { IfNone result ((entries : _) → AreListed entry_fields (IsEntry level) bytes.now from entries → IsAscending entries → ⊥) }
{
    let mut at = from;
    let mut count = 0;
    let mut before = None;
    while at < bytes.len() {
        let found = entry_at(bytes, at, level)?;
        if !is_in_order(before, found.entry) {
            return None;
        }
        before = Some(found.entry);
        at = found.end;
        count += 1;
    }
    Some(count)
}

/// The node that bytes are the image of. None is answered only where they are none.
pub fn node_in(bytes: &[u8]) -> Option<BorrowedNode<'_>>
    ensures found { IfSome result (λ node. (shown : Node) × (Holds node shown × IsNode bytes.now shown)) }
    ensures none { IfNone result ((node : _) → IsNode bytes.now node → ⊥) }
{
    if bytes.len() < 4 || bytes.len() > 430 || !has_zeros(bytes, 3, 1) {
        return None;
    }
    let level = u8_at(bytes, 0);
    let count = u16_at(bytes, 1);
    if count_entries(bytes, 4, level)? != count as usize {
        return None;
    }
    Some(BorrowedNode { bytes, level })
}

/// The first entry of a node, or none where it has no entries.
pub fn first_entry(node: BorrowedNode<'_>) -> Option<FoundEntry<'_>>
    ensures { (shown : _) → Holds node.entry shown → Begins node.entry.level node.entry.bytes.now result shown.entries }
{
    entry_at(node.bytes, 4, node.level)
}

/// The entry behind one, or none behind the last.
pub fn next_entry<'a>(node: BorrowedNode<'a>, found: FoundEntry<'a>) -> Option<FoundEntry<'a>>
    ensures further { (entry : Entry) (entries : List Entry) → Begins node.entry.level node.entry.bytes.now (Some found.entry) (entry ∷ entries) → Begins node.entry.level node.entry.bytes.now result entries }
    ensures place { IfSome result (λ next. (found.entry.end < next.end) × (next.end ≤ length node.entry.bytes.now)) }
{
    entry_at(node.bytes, found.end, node.level)
}
