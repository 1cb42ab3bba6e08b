// Whether pairs stand between the entries of a node.
ghost use Rattle.std.specs.Prelude.{◌≡◌, ◌<◌, length};
ghost use Rattle.std.specs.List.{list_all};
ghost use Rattle.std.specs.Ordering.{is_le, is_lt};
ghost use Rattle.std.specs.Option.{option_copied};
ghost use Rattle.index_node.specs.declared.entry.NodeEntry.{NodeEntry as Entry};
ghost use Rattle.index_node.specs.Order.{entry_order as entry_order_of};
ghost use Rattle.index_faults.specs.Walks.{are_from as are_from_of, are_below as are_below_of, low_at as low_at_of, are_between as are_between_of};

use index_node::{NodeEntry, entry_order};

fn are_all_from(low: &NodeEntry, pairs: &[NodeEntry]) -> bool
    ensures { result ≡ list_all (λ (p : Entry). is_le (entry_order_of low.now p)) pairs.now }
{
    pairs.iter().all(|pair| entry_order(low, pair).is_le())
}

fn are_all_below(high: &NodeEntry, pairs: &[NodeEntry]) -> bool
    ensures { result ≡ list_all (λ (p : Entry). is_lt (entry_order_of p high.now)) pairs.now }
{
    pairs.iter().all(|pair| entry_order(pair, high).is_lt())
}

fn are_from(low: Option<&NodeEntry>, pairs: &[NodeEntry]) -> bool
    ensures { result ≡ are_from_of (option_copied low.entry) pairs.now }
{
    match low {
        None => true,
        Some(low) => are_all_from(low, pairs),
    }
}

fn are_below(high: Option<&NodeEntry>, pairs: &[NodeEntry]) -> bool
    ensures { result ≡ are_below_of (option_copied high.entry) pairs.now }
{
    match high {
        None => true,
        Some(high) => are_all_below(high, pairs),
    }
}

// The entry that bounds what is below a child from below: its own, but for the first.
fn low_at(place: usize, entries: &[NodeEntry]) -> Option<&NodeEntry>
    ensures { option_copied result ≡ low_at_of place entries.now }
{
    if place == 0 { None } else { entries.get(place) }
}

/// Whether the pairs below the child at a place are at or above its entry, but for the first, and below the next one.
pub(crate) fn are_between(place: usize, entries: &[NodeEntry], pairs: &[NodeEntry]) -> bool
    requires { place < length entries.now }
    ensures { result ≡ are_between_of place entries.now pairs.now }
{
    are_from(low_at(place, entries), pairs) && are_below(entries.get(place + 1), pairs)
}
