//! SORTED BY: each tuple's key values are read once, and the tuples sorted by them.
ghost use Rattle.std.specs.Prelude.{◌≡◌, ◌++◌, map, slice_index_or, IfOk};
ghost use Rattle.rdb_types.specs.declared.values.Value.TheVariants.{Missing as MissingValue};
ghost use Rattle.rdb_types.specs.Order.{value_order};
ghost use Rattle.rdb_meaning.specs.Selecting.{turned as turned_order, sort_keys, stably_sorted, sorted_tuples};
ghost use Rattle.rdb_evaluation.specs.Crossing.{AreOver};
ghost use Rattle.rdb_evaluation.specs.Sorting.{value_read, key_values, directions as directions_of, ranked_tuple, directed_order, ranked_order};

use crate::binding::{opened, rebind};
use crate::reading::read_value;
use crate::tuples::Tuples;
use rdb_meaning::{Binding, Tables};
use rdb_types::{Copied, Items, Keys, NoMemory, Row, Value, value_order};
use rdo_ast::syntax::{Clause, Range, SortKey};
use std::alloc::Global;
use std::cmp::Ordering;

/// A tuple with the values that it is sorted by.
#[derive(Drop)]
pub(crate) struct Ranked {
    pub values: Row,
    pub tuple: Keys,
}

fn push_values(
    values: &mut Row,
    alloc: Global,
    tables: &Tables,
    scope: &[Binding],
    keys: &[SortKey],
) -> Result<(), NoMemory>
    ensures { IfOk result (λ _. values.new ≡ values.old ++ key_values keys.now (value_read tables.now scope.now)) }
{
    for key in keys {
        values.push(read_value(alloc, tables, scope, &key.reference)?)?;
    }
    Ok(())
}

/// The values that the sort keys read, in the order of the keys.
fn sort_values(
    alloc: Global,
    tables: &Tables,
    scope: &[Binding],
    clauses: &[Clause],
) -> Result<Row, NoMemory>
    ensures { IfOk result (λ values. values ≡ key_values (sort_keys clauses.now) (value_read tables.now scope.now)) }
{
    let mut values = Items::new(alloc);
    for clause in clauses {
        if let Clause::Sorted(keys) = clause {
            push_values(&mut values, alloc, tables, scope, keys.as_slice())?;
        }
    }
    Ok(values)
}

fn push_directions(directions: &mut Items<bool>, keys: &[SortKey]) -> Result<(), NoMemory>
    ensures { IfOk result (λ _. directions.new ≡ directions.old ++ directions_of keys.now) }
{
    for key in keys {
        directions.push(key.descending)?;
    }
    Ok(())
}

/// Whether each sort key is descending.
fn directions(alloc: Global, clauses: &[Clause]) -> Result<Items<bool>, NoMemory>
    ensures { IfOk result (λ ds. ds ≡ directions_of (sort_keys clauses.now)) }
{
    let mut directions = Items::new(alloc);
    for clause in clauses {
        if let Clause::Sorted(keys) = clause {
            push_directions(&mut directions, keys.as_slice())?;
        }
    }
    Ok(directions)
}

fn turned(descending: bool, order: Ordering) -> Ordering
    ensures { result ≡ turned_order descending order }
{
    if descending { order.reverse() } else { order }
}

/// The order of two values at a place, a missing one where there is none.
fn rank_at(a: &[Value], b: &[Value], at: usize) -> Ordering
    ensures { result ≡ value_order (slice_index_or a.now at MissingValue) (slice_index_or b.now at MissingValue) }
{
    match (a.get(at), b.get(at)) {
        (Some(x), Some(y)) => value_order(x, y),
        (Some(x), None) => value_order(x, &Value::Missing),
        (None, Some(y)) => value_order(&Value::Missing, y),
        (None, None) => Ordering::Equal,
    }
}

/// The order of two lists of values by their directions: the first place that tells them apart decides.
fn directed(directions: &[bool], a: &[Value], b: &[Value]) -> Ordering
    ensures { result ≡ directed_order directions.now a.now b.now }
{
    for (at, descending) in directions.iter().enumerate() {
        let order = turned(*descending, rank_at(a, b, at));
        if order.is_ne() {
            return order;
        }
    }
    Ordering::Equal
}

/// The tuples with their values.
fn with_values(
    alloc: Global,
    tables: &Tables,
    scope: &[Binding],
    ranges: &[Range],
    clauses: &[Clause],
    tuples: &[Keys],
) -> Result<Vec<Ranked>, NoMemory>
    requires { AreOver ranges.now tuples.now }
    ensures { IfOk result (λ ranked. ranked.items ≡ map (ranked_tuple clauses.now ranges.now tables.now scope.now) tuples.now) }
{
    let mut ranked = Vec::new(alloc);
    let mut bound = opened(alloc, scope, ranges)?;
    for tuple in tuples {
        rebind(&mut bound, scope.len(), tuple.as_slice());
        let values = sort_values(alloc, tables, bound.as_slice(), clauses)?;
        let tuple = tuple.copied(alloc)?;
        ranked.push(Ranked { values, tuple })?;
    }
    Ok(ranked)
}

/// Sorts stably.
fn sort_ranked(directions: &[bool], ranked: &mut Vec<Ranked>) -> Result<(), NoMemory>
    ensures { IfOk result (λ _. ranked.new.items ≡ stably_sorted (ranked_order directions.now) ranked.old.items) }
{
    ranked.sort_by(|a, b| directed(directions, a.values.as_slice(), b.values.as_slice()))?;
    Ok(())
}

/// The tuples alone.
fn without_values(alloc: Global, ranked: Vec<Ranked>) -> Result<Tuples, NoMemory>
    ensures { IfOk result (λ tuples. tuples ≡ map (λ r. r.tuple) ranked.items) }
{
    let mut tuples = Items::new(alloc);
    for Ranked { values: _, tuple } in ranked {
        tuples.push(tuple)?;
    }
    Ok(tuples)
}

/// The tuples sorted by the keys of the clauses, ties staying as they stand.
pub(crate) fn sorted(
    alloc: Global,
    tables: &Tables,
    scope: &[Binding],
    ranges: &[Range],
    clauses: &[Clause],
    tuples: Tuples,
) -> Result<Tuples, NoMemory>
    requires { AreOver ranges.now tuples }
    ensures { IfOk result (λ sorted. sorted ≡ sorted_tuples clauses.now ranges.now tables.now scope.now tuples) }
{
    let directions = directions(alloc, clauses)?;
    if directions.is_empty() {
        return Ok(tuples);
    }
    let mut ranked = with_values(alloc, tables, scope, ranges, clauses, tuples.as_slice())?;
    sort_ranked(directions.as_slice(), &mut ranked)?;
    without_values(alloc, ranked)
}
