ghost use Rattle.std.specs.Prelude.{◌≡◌, nat_lt, slice_index_or, IfOk};
ghost use Rattle.std.specs.Ordering.{is_eq};
ghost use Rattle.rdb_types.specs.Order.{value_order, row_order};
ghost use Rattle.rdb_checks.specs.rdb_meaning.Contents.{key_of, has_key};
ghost use Rattle.rdb_checks.specs.rdb_meaning.Defining.{positions_of, longest_at, longest_key, keys_repeat};

use rdb_checks::{FieldAt, field_of, same_name};
use rdb_types::{Chars, Dbkey, Field, Items, NoMemory, Positions, Row, Value};
use row_sizes::longest_value;
use std::alloc::Global;

fn longest_at(fields: &[Field], name: &Chars) -> u32
    ensures { result ≡ longest_at fields.now name.now }
{
    match field_of(fields, name) {
        Some(FieldAt { place: _, field }) => longest_value(&field.kind),
        None => 0,
    }
}

/// Whether a key over the named fields may be longer than 120 bytes.
pub fn is_key_too_long(fields: &[Field], names: &[Chars]) -> bool
    ensures { result ≡ nat_lt 120 (longest_key names.now fields.now) }
{
    let mut room = 120u32;
    for name in names {
        let Some(left) = room.checked_sub(longest_at(fields, name)) else {
            return true;
        };
        room = left;
    }
    false
}

// The place of a field in a key. One that doesn't fit 16 bits is answered as want of memory: a relation that is defined by a statement has fewer fields.
fn key_place(place: usize) -> Result<u16, NoMemory>
    ensures { IfOk result (λ n. n ≡ place) }
{
    match u16::try_from(place) {
        Ok(place) => Ok(place),
        Err(_) => Err(NoMemory {}),
    }
}

/// The places of the named fields.
pub fn positions_of(alloc: Global, fields: &[Field], names: &[Chars]) -> Result<Positions, NoMemory>
    ensures { IfOk result (λ places. places ≡ positions_of names.now fields.now) }
{
    let mut places = Items::new(alloc);
    for name in names {
        if let Some(FieldAt { place, field: _ }) = field_of(fields, name) {
            places.push(key_place(place)?)?;
        }
    }
    Ok(places)
}

fn value_at<'a>(row: &'a [Value], place: u16, absent: &'a Value) -> &'a Value
    ensures { result.now ≡ slice_index_or row.now place absent.now }
{
    match row.get(place as usize) {
        Some(value) => value,
        None => absent,
    }
}

fn is_same_value(left: &Value, right: &Value) -> bool
    ensures { result ≡ is_eq (value_order left.now right.now) }
{
    match (left, right) {
        (Value::Missing, Value::Missing) => true,
        (Value::Number(m), Value::Number(n)) => m == n,
        (Value::Text(s), Value::Text(t)) => same_name(s, t),
        _ => false,
    }
}

fn is_same_at(left: &[Value], right: &[Value], place: u16) -> bool
    ensures { result
        ≡ is_eq (value_order (slice_index_or left.now place Value.Missing) (slice_index_or right.now place Value.Missing)) }
{
    let absent = Value::Missing;
    is_same_value(
        value_at(left, place, &absent),
        value_at(right, place, &absent),
    )
}

#[tactic(auto, using(crate::proofs::SameKey::same_key_more))]
fn is_same_key(positions: &[u16], left: &[Value], right: &[Value]) -> bool
    ensures { result
        ≡ is_eq (row_order (key_of positions.now left.now) (key_of positions.now right.now)) }
{
    for place in positions {
        if !is_same_at(left, right, *place) {
            return false;
        }
    }
    true
}

fn has_key(positions: &[u16], row: &[Value], rows: &[(Dbkey, Row)]) -> bool
    ensures { result ≡ has_key positions.now row.now rows.now }
{
    for entry in rows {
        if is_same_key(positions, row, entry.1.as_slice()) {
            return true;
        }
    }
    false
}

/// Whether two rows have one key. For now it compares each pair of rows, so its time grows with the square of their count; it runs only where a unique index is defined over rows that are there.
pub fn keys_repeat(positions: &[u16], rows: &[(Dbkey, Row)]) -> bool
    ensures { result ≡ keys_repeat positions.now rows.now }
{
    for (place, entry) in rows.iter().enumerate() {
        if has_key(positions, entry.1.as_slice(), &rows[place + 1..]) {
            return true;
        }
    }
    false
}
