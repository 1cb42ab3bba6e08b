// The key of a row in an index.
ghost use Rattle.std.specs.Prelude.{◌≡◌, true, false, IfOk, slice_index_or};
ghost use Rattle.std.specs.Ordering.{is_eq};
ghost use Rattle.rdb_types.specs.Order.{value_order as value_order_of, row_order};
ghost use Rattle.rdb_types.specs.declared.values.Value.TheVariants.{Missing};
ghost use Rattle.rdb_meaning.specs.Contents.{key_of as key_at};
ghost use Rattle.sorted_index_laws.specs.Insertion.{IsKey};

use rdb_types::{Copied, NoMemory, Row, Value, value_order};
use record_format::{are_storable, values_size};
use std::alloc::Global;

/// The values of a row at these positions; where it has none, a missing one.
pub fn key_of(alloc: Global, positions: &[u16], row: &[Value]) -> Result<Row, NoMemory>
    ensures { IfOk result (λ key. key ≡ key_at positions.now row.now) }
{
    let mut key = Row::new(alloc);
    for position in positions {
        match row.get(*position as usize) {
            Some(value) => key.push(value.copied(alloc)?)?,
            None => key.push(Value::Missing)?,
        }
    }
    Ok(key)
}

/// Whether an index may have these values as a key: they can be laid out, and take 120 bytes at most.
pub fn is_key(key: &[Value]) -> bool
    ensures yes { result ≡ true → IsKey key.now }
    ensures no { result ≡ false → IsKey key.now → ⊥ }
{
    are_storable(key) && values_size(key, 120).is_some()
}

fn is_same_at(position: u16, one: &[Value], other: &[Value]) -> bool
    ensures { result ≡ is_eq (value_order_of (slice_index_or one.now position Missing) (slice_index_or other.now position Missing)) }
{
    let at = position as usize;
    match (one.get(at), other.get(at)) {
        (Some(one), Some(other)) => value_order(one, other).is_eq(),
        (Some(one), None) => value_order(one, &Value::Missing).is_eq(),
        (None, Some(other)) => value_order(&Value::Missing, other).is_eq(),
        (None, None) => true,
    }
}

/// Whether two rows have one key at these positions. It takes no memory.
pub fn have_one_key(positions: &[u16], one: &[Value], other: &[Value]) -> bool
    ensures { result ≡ is_eq (row_order (key_at positions.now one.now) (key_at positions.now other.now)) }
{
    for position in positions {
        if !is_same_at(*position, one, other) {
            return false;
        }
    }
    true
}
