// Values one after another.
ghost use Rattle.std.specs.Prelude.{◌≡◌, ◌≤◌, ◌<◌, ◌+◌, ◌^◌, ℤ, ℕ, List, Some, true, false, length, take, drop, IfSome, IfNone, IfOk};
ghost use Rattle.std.specs.List.{All};
ghost use Rattle.slot_fields.specs.Fields.{laid, size, Fit, HasPart, number_at};
ghost use Rattle.rdb_types.specs.declared.values.Value.TheVariants.{Number, Text};
ghost use Rattle.record_format.specs.Lists.{StandsAt};
ghost use Rattle.record_format.specs.Values.{value_fields, values_fields, IsText, IsStorable, IsValue, AreValues};

use rdb_types::{Chars, NoMemory, Row, Value};
use slot_fields::{bytes_at, put_bytes, put_u8, put_u16, put_u64, u8_at, u16_at, u64_at};
use std::alloc::Global;

// A value that was read, and the place behind its bytes.
#[derive(Drop)]
struct Found {
    value: Value,
    end: usize,
}

fn is_text(bytes: &[u8]) -> bool
    ensures yes { result ≡ true → IsText bytes.now }
    ensures no { result ≡ false → IsText bytes.now → ⊥ }
{
    bytes.iter().all(|b| 32 <= *b && *b <= 126) && bytes.last() != Some(&32)
}

fn is_storable(value: &Value) -> bool
    ensures yes { result ≡ true → IsStorable value.now }
    ensures value { result ≡ true → IsValue value.now }
    ensures no { result ≡ false → IsStorable value.now → ⊥ }
{
    match value {
        Value::Missing => true,
        Value::Number(number) => {
            // A proof knows the range of a number only where it is read.
            let _number = *number;
            true
        }
        Value::Text(text) => is_text(text.as_slice()),
    }
}

/// Whether values may be laid out: each byte of a text is from 32 to 126, and its last is no blank.
pub fn are_storable(values: &[Value]) -> bool
    ensures yes { result ≡ true → All IsStorable values.now }
    ensures values { result ≡ true → All IsValue values.now }
    ensures no { result ≡ false → All IsStorable values.now → ⊥ }
{
    values.iter().all(|value| is_storable(value))
}

fn value_size(value: &Value) -> usize
    ensures { result ≡ size (value_fields value.now) }
{
    match value {
        Value::Missing => 1,
        Value::Number(_) => 9,
        Value::Text(text) => 3 + text.as_slice().len(),
    }
}

/// The bytes that values take, or None where they are more than the limit.
pub fn values_size(values: &[Value], limit: usize) -> Option<usize>
    ensures value { IfSome result (λ bytes. bytes ≡ size (values_fields values.now)) }
    ensures within { IfSome result (λ bytes. bytes ≤ limit) }
    ensures none { IfNone result (limit < size (values_fields values.now)) }
{
    let mut bytes = 0;
    for value in values {
        let more = value_size(value);
        if limit - bytes < more {
            return None;
        }
        bytes += more;
    }
    Some(bytes)
}

fn put_value(slot: &mut [u8], at: usize, value: &Value) -> usize
    requires room { at + size (value_fields value.now) ≤ length slot.old }
    requires small { length slot.old < 2 ^ 16 }
    requires storable { IsStorable value.now }
    ensures end { result ≡ at + size (value_fields value.now) }
    ensures front { take result slot.new ≡ laid (take at slot.old) (value_fields value.now) }
    ensures rest { drop result slot.new ≡ drop result slot.old }
    ensures fits { Fit (value_fields value.now) }
    ensures value { IsValue value.now }
{
    match value {
        Value::Missing => {
            put_u8(slot, at, 0);
            at + 1
        }
        Value::Number(number) => {
            put_u8(slot, at, 1);
            put_u64(slot, at + 1, number.cast_unsigned());
            at + 9
        }
        Value::Text(text) => {
            let bytes = text.as_slice();
            put_u8(slot, at, 2);
            put_u16(slot, at + 1, bytes.len() as u16);
            put_bytes(slot, at + 3, bytes);
            at + 3 + bytes.len()
        }
    }
}

/// Writes values one after another from a place on, and gives the place behind the last. They fit their bytes.
pub fn put_values(slot: &mut [u8], at: usize, values: &[Value]) -> usize
    requires room { at + size (values_fields values.now) ≤ length slot.old }
    requires small { length slot.old < 2 ^ 16 }
    requires storable { All IsStorable values.now }
    ensures end { result ≡ at + size (values_fields values.now) }
    ensures front { take result slot.new ≡ laid (take at slot.old) (values_fields values.now) }
    ensures rest { drop result slot.new ≡ drop result slot.old }
    ensures fits { Fit (values_fields values.now) }
    ensures values { All IsValue values.now }
{
    let mut end = at;
    for value in values {
        end = put_value(slot, end, value);
    }
    end
}

fn number_value(bytes: &[u8], at: usize) -> Option<Found>
    requires place { at < length bytes.now }
    requires kind { number_at 1 at bytes.now ≡ 1 }
    ensures found { IfSome result (λ found. StandsAt value_fields IsValue bytes.now at found.value found.end) }
    ensures none { IfNone result ((n : ℤ) → at + size (value_fields (Number n)) ≤ length bytes.now → ⊥) }
{
    if bytes.len() - at < 9 {
        return None;
    }
    let number = u64_at(bytes, at + 1).cast_signed();
    Some(Found {
        value: Value::Number(number),
        end: at + 9,
    })
}

fn text_value(alloc: Global, bytes: &[u8], at: usize) -> Result<Option<Found>, NoMemory>
    requires place { at < length bytes.now }
    requires kind { number_at 1 at bytes.now ≡ 2 }
    ensures found { IfOk result (λ read. IfSome read (λ found. StandsAt value_fields IsValue bytes.now at found.value found.end)) }
    ensures none { IfOk result (λ read. IfNone read ((t : List ℕ) → HasPart at (value_fields (Text t)) bytes.now → IsText t → at + size (value_fields (Text t)) ≤ length bytes.now → ⊥)) }
{
    if bytes.len() - at < 3 {
        return Ok(None);
    }
    let length = u16_at(bytes, at + 1) as usize;
    if bytes.len() - at - 3 < length {
        return Ok(None);
    }
    let text = bytes_at(bytes, at + 3, length);
    if !is_text(text) {
        return Ok(None);
    }
    let text = Chars::from_slice(alloc, text)?;
    Ok(Some(Found {
        value: Value::Text(text),
        end: at + 3 + length,
    }))
}

fn value_at(alloc: Global, bytes: &[u8], at: usize) -> Result<Option<Found>, NoMemory>
    requires { at < length bytes.now }
    ensures found { IfOk result (λ read. IfSome read (λ found. StandsAt value_fields IsValue bytes.now at found.value found.end)) }
    ensures none { IfOk result (λ read. IfNone read ((value : _) (end : ℕ) → StandsAt value_fields IsValue bytes.now at value end → ⊥)) }
{
    match u8_at(bytes, at) {
        0 => Ok(Some(Found {
            value: Value::Missing,
            end: at + 1,
        })),
        1 => Ok(number_value(bytes, at)),
        2 => text_value(alloc, bytes, at),
        _ => Ok(None),
    }
}

/// The values that bytes are from a place on, one after another up to the end. None is answered only where they are none.
pub fn read_values(alloc: Global, bytes: &[u8], from: usize) -> Result<Option<Row>, NoMemory>
    requires { from ≤ length bytes.now }
    ensures found { IfOk result (λ read. IfSome read (AreValues bytes.now from)) }
    ensures none { IfOk result (λ read. IfNone read ((values : _) → AreValues bytes.now from values → ⊥)) }

    // Values that were laid out are read again.
    ensures again { (values : _) → AreValues bytes.now from values → IfOk result (λ read. read ≡ Some values) }
{
    let mut values = Row::new(alloc);
    let mut at = from;
    while at < bytes.len() {
        let Some(found) = value_at(alloc, bytes, at)? else {
            return Ok(None);
        };
        at = found.end;
        values.push(found.value)?;
    }
    Ok(Some(values))
}
