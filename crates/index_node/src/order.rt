// The order of entries.
ghost use Rattle.std.specs.Prelude.{◌≡◌};
ghost use Rattle.std.specs.Cmp.{IsTotalOrder};
ghost use Rattle.index_node.specs.Order.{entry_order as entry_order_of};

use crate::entry::NodeEntry;
use record_format::row_order;
use std::cmp::Ordering;

/// The order of entries: by their keys, and equal keys by their rows.
pub fn entry_order(a: &NodeEntry, b: &NodeEntry) -> Ordering
    ensures { result ≡ entry_order_of a.now b.now }
{
    row_order(a.key.as_slice(), b.key.as_slice()).then(a.row.cmp(&b.row))
}

/// The order is total.
pub fn entries_are_ordered()
    ensures { IsTotalOrder entry_order_of }
{}
