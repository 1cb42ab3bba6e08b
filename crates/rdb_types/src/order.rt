// The orders of values and of rows.
ghost use Rattle.std.specs.Prelude.{◌≡◌};
ghost use Rattle.std.specs.declared.cmp.Ordering.TheVariants.{Equal};
ghost use Rattle.std.specs.Cmp.{IsTotalOrder};
ghost use Rattle.rdb_types.specs.Order.{value_order as value_order_of, row_order as row_order_of, dbkey_order, chars_order};

use crate::Value;
use std::cmp::Ordering;

/// The order of values, that of indexes, of SORTED BY and of REDUCED TO: a missing value is below all others and equals itself, a number is below a text.
pub fn value_order(a: &Value, b: &Value) -> Ordering
    ensures { result ≡ value_order_of a.now b.now }
{
    match (a, b) {
        (Value::Missing, Value::Missing) => Ordering::Equal,
        (Value::Missing, _) => Ordering::Less,
        (_, Value::Missing) => Ordering::Greater,
        (Value::Number(m), Value::Number(n)) => m.cmp(n),
        (Value::Text(s), Value::Text(t)) => s.as_slice().cmp(&t.as_slice()),
        (Value::Number(_), Value::Text(_)) => Ordering::Less,
        (Value::Text(_), Value::Number(_)) => Ordering::Greater,
    }
}

/// The order of rows and of keys: by the first value that differs, a row before those that it begins.
pub fn row_order(a: &[Value], b: &[Value]) -> Ordering
    ensures { result ≡ row_order_of a.now b.now }
{
    for (at, value) in a.iter().enumerate() {
        let Some(other) = b.get(at) else {
            return Ordering::Greater;
        };
        let order = value_order(value, other);
        if order.is_ne() {
            return order;
        }
    }
    if a.len() < b.len() {
        Ordering::Less
    } else {
        Ordering::Equal
    }
}

/// The orders are total.
pub fn orders_are_total()
    ensures values { IsTotalOrder value_order_of }
    ensures rows { IsTotalOrder row_order_of }
    ensures dbkeys { IsTotalOrder dbkey_order }
    ensures names { IsTotalOrder chars_order }
{}

/// What differs never ties.
pub fn orders_are_exact()
    ensures values { (a b : _) → value_order_of a b ≡ Equal → a ≡ b }
    ensures rows { (a b : _) → row_order_of a b ≡ Equal → a ≡ b }
    ensures dbkeys { (a b : _) → dbkey_order a b ≡ Equal → a ≡ b }
    ensures names { (a b : _) → chars_order a b ≡ Equal → a ≡ b }
{}
