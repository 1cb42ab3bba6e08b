//! Keys of unique indexes that another row has.
ghost use Rattle.std.specs.Prelude.{◌≡◌, ◌==◌, IfOk, filter, slice_index_or};
ghost use Rattle.rdb_types.specs.declared.values.Value.TheVariants.{Missing};
ghost use Rattle.std.specs.Ordering.{is_eq};
ghost use Rattle.rdb_types.specs.Order.{value_order, row_order};
ghost use Rattle.rdb_meaning.specs.Contents.{key_of, is_taken as taken_in, by_area, indexes_on as indexes_of, first_taken};
ghost use Rattle.rdb_tables.specs.Indexes.{seen_at, with_some};

use crate::area::Area;
use ordered_entries::{Entries, Key};
use rdb_meaning::{Index, Relation, Tables};
use rdb_types::{Chars, Copied, Dbkey, NoMemory, Row, Value};
use sqlite_items::at;
use std::alloc::Global;

// Whether two values stand at the same place in the order of indexes.
fn same_rank(a: &Value, b: &Value) -> bool
    ensures { result ≡ is_eq (value_order a.now b.now) }
{
    match (a, b) {
        (Value::Missing, Value::Missing) => true,
        (Value::Number(m), Value::Number(n)) => m == n,
        (Value::Text(s), Value::Text(t)) => s.as_slice() == t.as_slice(),
        _ => false,
    }
}

#[tactic(auto, using(crate::proofs::UniqueKeys::read_or))]
// The same of the values at a place of two rows, where a value past a row's end is missing.
fn same_rank_at(place: u16, row: &[Value], other: &[Value]) -> bool
    ensures { result ≡ is_eq (value_order (slice_index_or row.now place Missing) (slice_index_or other.now place Missing)) }
{
    match (at(row, place as usize), at(other, place as usize)) {
        (Some(a), Some(b)) => same_rank(a, b),
        (Some(a), None) => matches!(a, Value::Missing),
        (None, Some(b)) => matches!(b, Value::Missing),
        (None, None) => true,
    }
}

// Whether two rows have the same key.
#[tactic(auto, using(crate::proofs::UniqueKeys::tied_then))]
fn same_key(places: &[u16], row: &[Value], other: &[Value]) -> bool
    ensures { result ≡ is_eq (row_order (key_of places.now row.now) (key_of places.now other.now)) }
{
    for place in places {
        if !same_rank_at(*place, row, other) {
            return false;
        }
    }
    true
}

// Whether another row has the row's key.
fn is_taken(places: &[u16], row: &[Value], own: &Dbkey, rows: &[(Dbkey, Row)]) -> bool
    ensures { result ≡ taken_in places.now row.now own.now rows.now }
{
    for (key, other) in rows {
        if own.order(key).is_ne() && same_key(places, row, other.as_slice()) {
            return true;
        }
    }
    false
}

// Where the indexes on a relation stand among all, in the order of their definition.
fn indexes_on(
    alloc: Global,
    indexes: &[(Chars, Index)],
    area: u32,
) -> Result<Entries<Area, usize>, NoMemory>
    ensures { IfOk result
        (λ places. seen_at indexes.now places ≡ with_some (by_area (filter (λ e. e.1.relation == area) indexes.now))) }
{
    let mut places = Entries::new(alloc);
    for place in (0..indexes.len()).rev() {
        let index = &indexes[place].1;
        if index.relation == area {
            places.put(Area { number: index.area }, place)?;
        }
    }
    Ok(places)
}

/// The first unique index of a relation, in the order of definition, in which another row has this row's key.
pub fn taken_by(
    alloc: Global,
    tables: &Tables,
    relation: &Relation,
    row: &[Value],
    own: &Dbkey,
) -> Result<Option<Chars>, NoMemory>
    ensures { IfOk result
        (λ found. found ≡ first_taken (λ places. taken_in places row.now own.now relation.now.rows) (indexes_of relation.now.area tables.now)) }
{
    let indexes = tables.indexes.as_slice();
    let places = indexes_on(alloc, indexes, relation.area)?;
    for (_, place) in places.as_slice() {
        if let Some((name, index)) = at(indexes, *place) {
            if index.unique
                && is_taken(index.fields.as_slice(), row, own, relation.rows.as_slice())
            {
                return Ok(Some(name.copied(alloc)?));
            }
        }
    }
    Ok(None)
}
