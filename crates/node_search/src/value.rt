// Values where they lie.
ghost use Rattle.std.specs.Prelude.{◌≡◌, ◌≤◌, ◌<◌, ◌+◌, ℤ, ℕ, List, true, false, length, IfSome, IfNone};
ghost use Rattle.slot_fields.specs.Fields.{size, HasPart, number_at};
ghost use Rattle.rdb_types.specs.declared.values.Value.TheVariants.{Number, Text};
ghost use Rattle.rdb_types.specs.Order.{value_order as value_order_of};
ghost use Rattle.record_format.specs.Lists.{StandsAt};
ghost use Rattle.record_format.specs.Values.{value_fields, IsText, IsValue};
ghost use Rattle.node_search.specs.Values.{value_of};

use rdb_types::Value;
use slot_fields::{bytes_at, u8_at, u16_at, u64_at};
use std::cmp::Ordering;

/// A value of which a text's bytes stay where they are.
#[derive(Clone, Copy)]
pub(crate) enum BorrowedValue<'a> {
    Missing,
    Number(i64),
    Text(&'a [u8]),
}

// A value that stands in bytes, and the place behind it.
#[derive(Clone, Copy)]
pub(crate) struct FoundValue<'a> {
    pub value: BorrowedValue<'a>,
    pub end: usize,
}

fn is_text(bytes: &[u8]) -> bool
    ensures yes { result ≡ true → IsText bytes.now }
    ensures no { result ≡ false → IsText bytes.now → ⊥ }
{
    bytes.iter().all(|b| 32 <= *b && *b <= 126) && bytes.last() != Some(&32)
}

fn number_at_place(bytes: &[u8], at: usize) -> Option<FoundValue<'_>>
    requires place { at < length bytes.now }
    requires kind { number_at 1 at bytes.now ≡ 1 }
    ensures found { IfSome result (λ found. StandsAt value_fields IsValue bytes.now at (value_of found.value) found.end) }
    ensures none { IfNone result ((n : ℤ) → at + size (value_fields (Number n)) ≤ length bytes.now → ⊥) }
{
    if bytes.len() - at < 9 {
        return None;
    }
    Some(FoundValue {
        value: BorrowedValue::Number(u64_at(bytes, at + 1).cast_signed()),
        end: at + 9,
    })
}

fn text_at_place(bytes: &[u8], at: usize) -> Option<FoundValue<'_>>
    requires place { at < length bytes.now }
    requires kind { number_at 1 at bytes.now ≡ 2 }
    ensures found { IfSome result (λ found. StandsAt value_fields IsValue bytes.now at (value_of found.value) found.end) }
    ensures none { IfNone result ((t : List ℕ) → HasPart at (value_fields (Text t)) bytes.now → IsText t → at + size (value_fields (Text t)) ≤ length bytes.now → ⊥) }
{
    if bytes.len() - at < 3 {
        return None;
    }
    let length = u16_at(bytes, at + 1) as usize;
    if bytes.len() - at - 3 < length {
        return None;
    }
    let text = bytes_at(bytes, at + 3, length);
    if !is_text(text) {
        return None;
    }
    Some(FoundValue {
        value: BorrowedValue::Text(text),
        end: at + 3 + length,
    })
}

/// The value that stands at a place. None is answered only where none stands there.
pub(crate) fn value_at(bytes: &[u8], at: usize) -> Option<FoundValue<'_>>
    ensures found { IfSome result (λ found. StandsAt value_fields IsValue bytes.now at (value_of found.value) found.end) }
    ensures none { IfNone result ((value : _) (end : ℕ) → StandsAt value_fields IsValue bytes.now at value end → ⊥) }
{
    if at >= bytes.len() {
        return None;
    }
    match u8_at(bytes, at) {
        0 => Some(FoundValue {
            value: BorrowedValue::Missing,
            end: at + 1,
        }),
        1 => number_at_place(bytes, at),
        2 => text_at_place(bytes, at),
        _ => None,
    }
}

/// A value as it is borrowed.
pub(crate) fn borrowed(value: &Value) -> BorrowedValue<'_>
    ensures { value_of result ≡ value.now }
{
    match value {
        Value::Missing => BorrowedValue::Missing,
        Value::Number(number) => BorrowedValue::Number(*number),
        Value::Text(text) => BorrowedValue::Text(text.as_slice()),
    }
}

/// The order of values: a missing one is below all others and equals itself, a number is below a text.
pub(crate) fn value_order(a: BorrowedValue<'_>, b: BorrowedValue<'_>) -> Ordering
    ensures { result ≡ value_order_of (value_of a.entry) (value_of b.entry) }
{
    match (a, b) {
        (BorrowedValue::Missing, BorrowedValue::Missing) => Ordering::Equal,
        (BorrowedValue::Missing, _) => Ordering::Less,
        (_, BorrowedValue::Missing) => Ordering::Greater,
        (BorrowedValue::Number(m), BorrowedValue::Number(n)) => m.cmp(&n),
        (BorrowedValue::Text(s), BorrowedValue::Text(t)) => s.cmp(&t),
        (BorrowedValue::Number(_), BorrowedValue::Text(_)) => Ordering::Less,
        (BorrowedValue::Text(_), BorrowedValue::Number(_)) => Ordering::Greater,
    }
}
