// Keys where they lie.
ghost use Rattle.std.specs.Prelude.{◌≡◌, ◌≤◌, List, true, false, length};
ghost use Rattle.rdb_types.specs.Order.{row_order as row_order_of};
ghost use Rattle.rdb_types.specs.declared.values.Value.{Value as KeyValue};
ghost use Rattle.record_format.specs.Values.{AreValues};
ghost use Rattle.sorted_index_laws.specs.Keys.{first_values_order as first_values_order_of};
ghost use Rattle.node_search.specs.Keys.{order_by as order_by_of};
ghost use Rattle.node_search.specs.Entries.{ShowsKey};

use crate::value::{borrowed, value_at, value_order};
use rdb_types::Value;
use std::cmp::Ordering;

/// A key where it lies: its values, from a place up to the end of bytes.
#[derive(Clone, Copy)]
pub struct BorrowedKey<'a> {
    pub bytes: &'a [u8],
    pub from: usize,
}

/// Whether bytes are values from a place on, one after another up to the end.
pub(crate) fn are_values(bytes: &[u8], from: usize) -> bool
    requires { from ≤ length bytes.now }
    ensures yes { result ≡ true → (values : List KeyValue) × AreValues bytes.now from values }
    ensures no { result ≡ false → (values : _) → AreValues bytes.now from values → ⊥ }
{
    let mut at = from;
    while at < bytes.len() {
        let Some(found) = value_at(bytes, at) else {
            return false;
        };
        at = found.end;
    }
    true
}

// The order of a key and other values by the first that differs. `more` is the order where the key has them all and more.
fn order_by(more: Ordering, key: BorrowedKey<'_>, others: &[Value]) -> Ordering
    ensures { (values : _) → ShowsKey key.entry values → result ≡ order_by_of more values others.now }
{
    let mut at = key.from;
    for other in others {
        let Some(found) = value_at(key.bytes, at) else {
            return Ordering::Less;
        };
        let order = value_order(found.value, borrowed(other));
        if order.is_ne() {
            return order;
        }
        at = found.end;
    }
    if at < key.bytes.len() {
        more
    } else {
        Ordering::Equal
    }
}

/// The order of a key and other values, a key before those that it begins.
pub(crate) fn key_order(key: BorrowedKey<'_>, others: &[Value]) -> Ordering
    ensures { (values : _) → ShowsKey key.entry values → result ≡ row_order_of values others.now }
{
    order_by(Ordering::Greater, key, others)
}

/// The order of a key and a bound, by as many of the key's first values as the bound has.
pub(crate) fn first_values_order(key: BorrowedKey<'_>, bound: &[Value]) -> Ordering
    ensures { (values : _) → ShowsKey key.entry values → result ≡ first_values_order_of values bound.now }
{
    order_by(Ordering::Equal, key, bound)
}

/// The order of two keys, a key before those that it begins.
pub(crate) fn keys_order(a: BorrowedKey<'_>, b: BorrowedKey<'_>) -> Ordering
    ensures { (values others : _) → ShowsKey a.entry values → ShowsKey b.entry others → result ≡ row_order_of values others }
{
    let mut at = a.from;
    let mut other_at = b.from;
    while let Some(found) = value_at(a.bytes, at) {
        let Some(other) = value_at(b.bytes, other_at) else {
            return Ordering::Greater;
        };
        let order = value_order(found.value, other.value);
        if order.is_ne() {
            return order;
        }
        at = found.end;
        other_at = other.end;
    }
    if other_at < b.bytes.len() {
        Ordering::Less
    } else {
        Ordering::Equal
    }
}
