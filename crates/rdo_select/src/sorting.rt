//! SORTED BY: found tuples sorted stably by the values at the places of the keys.
ghost use Rattle.std.specs.Prelude.{◌≡◌, reverse, IfOk};
ghost use Rattle.rdb_types.specs.Order.{value_order as value_order_of};
ghost use Rattle.rdb_meaning.specs.Selecting.{turned as turned_order};
ghost use Rattle.rdo_select.specs.Ordered.{value_in, order_by_keys, order_by, sorted_found};

use crate::crossing::{Found, FoundTuples};
use rdb_types::{Items, NoMemory, Value, value_order};
use rdo_values::{BoundClause, BoundReference, BoundSortKey};
use std::alloc::Global;
use std::cmp::Ordering;

fn turned(descending: bool, order: Ordering) -> Ordering
    ensures { result ≡ turned_order descending order }
{
    if descending { order.reverse() } else { order }
}

/// The order of the values at a place, a missing one where there is none.
fn order_at(reference: &BoundReference, a: &[Value], b: &[Value]) -> Ordering
    ensures { result ≡ value_order_of (value_in a.now reference.now) (value_in b.now reference.now) }
{
    match (a.get(reference.place), b.get(reference.place)) {
        (Some(x), Some(y)) => value_order(x, y),
        (Some(x), None) => value_order(x, &Value::Missing),
        (None, Some(y)) => value_order(&Value::Missing, y),
        (None, None) => Ordering::Equal,
    }
}

/// The order of two rows by keys: the first key that tells them apart decides.
fn keys_order(keys: &[BoundSortKey], a: &[Value], b: &[Value]) -> Ordering
    ensures { result ≡ order_by_keys keys.now a.now b.now }
{
    for key in keys {
        let order = turned(key.descending, order_at(&key.reference, a, b));
        if order.is_ne() {
            return order;
        }
    }
    Ordering::Equal
}

/// The order of two rows by the keys of all clauses.
fn rows_order(clauses: &[BoundClause], a: &[Value], b: &[Value]) -> Ordering
    ensures { result ≡ order_by clauses.now a.now b.now }
{
    for clause in clauses {
        if let BoundClause::Sorted(keys) = clause {
            let order = keys_order(keys.as_slice(), a, b);
            if order.is_ne() {
                return order;
            }
        }
    }
    Ordering::Equal
}

/// The tuples from the last to the first.
fn reversed(alloc: Global, found: FoundTuples) -> Result<Vec<Found>, NoMemory>
    ensures { IfOk result (λ tuples. tuples.items ≡ reverse found) }
{
    let mut left = found;
    let mut tuples = Vec::new(alloc);
    while let Some(tuple) = left.pop() {
        tuples.push(tuple)?;
    }
    Ok(tuples)
}

/// Sorts stably.
fn sort(clauses: &[BoundClause], tuples: &mut Vec<Found>) -> Result<(), NoMemory>
    ensures { IfOk result (λ _. tuples.new.items ≡ sorted_found clauses.now tuples.old.items) }
{
    tuples.sort_by(|a, b| rows_order(clauses, a.row.as_slice(), b.row.as_slice()))?;
    Ok(())
}

/// The tuples sorted by the keys of the clauses, ties staying as they stand.
pub(crate) fn sorted(
    alloc: Global,
    clauses: &[BoundClause],
    found: FoundTuples,
) -> Result<FoundTuples, NoMemory>
    ensures { IfOk result (λ sorted. sorted ≡ sorted_found clauses.now found) }
{
    if clauses.is_empty() {
        return Ok(found);
    }
    let mut tuples = reversed(alloc, found)?;
    tuples.reverse();
    sort(clauses, &mut tuples)?;
    Ok(Items::from_vec(tuples))
}
