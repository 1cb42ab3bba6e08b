// Names, types and positions.
ghost use Rattle.std.specs.Prelude.{◌≡◌, ◌≤◌, ◌+◌, ◌*◌, ℕ, List, true, false, length, take, slice_index, IfSome, IfNone, IfOk};
ghost use Rattle.std.specs.Char.{is_ascii_uppercase};
ghost use Rattle.slot_fields.specs.Fields.{laid, size, Fit, HasPart};
ghost use Rattle.catalog_lines.specs.Parts.{is_name_byte, IsName, EndsWithName, IsType, HasType, kind_byte, flag_byte, name_fields, type_fields, positions_fields};

use rdb_types::{Chars, DataType, FieldType, NoMemory, Positions};
use slot_fields::{bytes_at, put_bytes, put_u8, put_u16, u8_at, u16_at};
use std::alloc::Global;

fn is_name_byte(byte: u8) -> bool
    ensures { result ≡ is_name_byte byte }
{
    byte.is_ascii_uppercase() || byte.is_ascii_digit() || byte == b'_' || byte == b'$'
}

fn begins_with_letter(bytes: &[u8]) -> bool
    ensures { result ≡ is_ascii_uppercase (slice_index bytes.now 0) }
{
    match bytes {
        [first, ..] => first.is_ascii_uppercase(),
        [] => false,
    }
}

/// Whether bytes are a name: 1 to 31 upper-case letters, digits, `_` and `$`, of which the first is a letter.
pub fn is_name(bytes: &[u8]) -> bool
    ensures yes { result ≡ true → IsName bytes.now }
    ensures no { result ≡ false → IsName bytes.now → ⊥ }
{
    1 <= bytes.len()
        && bytes.len() <= 31
        && begins_with_letter(bytes)
        && bytes.iter().all(|b| is_name_byte(*b))
}

/// Writes a name at a place: its length and its bytes. It gives the place behind.
pub(crate) fn put_name(slot: &mut [u8], at: usize, name: &[u8]) -> usize
    requires room { at + size (name_fields name.now) ≤ length slot.old }
    requires short { length name.now ≤ 31 }
    ensures end { result ≡ at + size (name_fields name.now) }
    ensures front { take result slot.new ≡ laid (take at slot.old) (name_fields name.now) }
    ensures fits { Fit (name_fields name.now) }
{
    put_u8(slot, at, name.len() as u8);
    put_bytes(slot, at + 1, name);
    at + 1 + name.len()
}

/// The name that bytes end with, from a place on.
pub(crate) fn last_name(alloc: Global, bytes: &[u8], at: usize) -> Result<Option<Chars>, NoMemory>
    requires { at ≤ length bytes.now }
    ensures found { IfOk result (λ read. IfSome read (EndsWithName bytes.now at)) }
    ensures none { IfOk result (λ read. IfNone read ((name : List ℕ) → EndsWithName bytes.now at name → ⊥)) }
{
    if bytes.len() == at {
        return Ok(None);
    }
    let length = u8_at(bytes, at) as usize;
    if bytes.len() - at - 1 != length {
        return Ok(None);
    }
    let name = bytes_at(bytes, at + 1, length);
    if !is_name(name) {
        return Ok(None);
    }
    Ok(Some(Chars::from_slice(alloc, name)?))
}

fn kind_byte(kind: DataType) -> u8
    ensures { result ≡ kind_byte kind }
{
    match kind {
        DataType::Word => 1,
        DataType::Longword => 2,
        DataType::Quadword => 3,
        DataType::Text => 4,
    }
}

fn kind_of(byte: u8) -> Option<DataType>
    ensures some { IfSome result (λ kind. byte ≡ kind_byte kind) }
    ensures none { IfNone result ((kind : _) → byte ≡ kind_byte kind → ⊥) }
{
    match byte {
        1 => Some(DataType::Word),
        2 => Some(DataType::Longword),
        3 => Some(DataType::Quadword),
        4 => Some(DataType::Text),
        _ => None,
    }
}

/// Whether a type is within its bounds: a text without a scale and of 1 to 500 characters, a number with a scale up to 9 and without a size.
pub fn is_type(kind: FieldType) -> bool
    ensures yes { result ≡ true → IsType kind }
    ensures no { result ≡ false → IsType kind → ⊥ }
{
    match kind.kind {
        DataType::Text => kind.scale == 0 && 1 <= kind.size && kind.size <= 500,
        DataType::Word | DataType::Longword | DataType::Quadword => {
            kind.scale <= 9 && kind.size == 0
        }
    }
}

/// Writes a type at a place: its kind, its scale and its size, in 4 bytes.
pub(crate) fn put_type(slot: &mut [u8], at: usize, kind: FieldType)
    requires { at + 4 ≤ length slot.old }
    ensures front { take (at + 4) slot.new ≡ laid (take at slot.old) (type_fields kind) }
    ensures fits { Fit (type_fields kind) }
{
    put_u8(slot, at, kind_byte(kind.kind));
    put_u8(slot, at + 1, kind.scale);
    put_u16(slot, at + 2, kind.size);
}

/// The type at a place.
pub(crate) fn type_at(bytes: &[u8], at: usize) -> Option<FieldType>
    requires { at + 4 ≤ length bytes.now }
    ensures found { IfSome result (HasType bytes.now at) }
    ensures none { IfNone result ((kind : _) → HasType bytes.now at kind → ⊥) }
{
    let kind = FieldType {
        kind: kind_of(u8_at(bytes, at))?,
        scale: u8_at(bytes, at + 1),
        size: u16_at(bytes, at + 2),
    };
    if is_type(kind) { Some(kind) } else { None }
}

/// The byte of a flag.
pub(crate) fn flag_byte(flag: bool) -> u8
    ensures { result ≡ flag_byte flag }
{
    if flag { 1 } else { 0 }
}

/// Writes positions one after another from a place on, in 2 bytes each. It gives the place behind.
pub(crate) fn put_positions(slot: &mut [u8], at: usize, positions: &[u16]) -> usize
    requires { at + size (positions_fields positions.now) ≤ length slot.old }
    ensures end { result ≡ at + size (positions_fields positions.now) }
    ensures front { take result slot.new ≡ laid (take at slot.old) (positions_fields positions.now) }
    ensures fits { Fit (positions_fields positions.now) }
{
    let mut end = at;
    for position in positions {
        put_u16(slot, end, *position);
        end += 2;
    }
    end
}

/// So many positions that stand from a place on.
pub(crate) fn positions_at(
    alloc: Global,
    bytes: &[u8],
    at: usize,
    count: usize,
) -> Result<Positions, NoMemory>
    requires { at + 2 * count ≤ length bytes.now }
    ensures positions { IfOk result (λ read. HasPart at (positions_fields read) bytes.now) }
    ensures count { IfOk result (λ read. length read ≡ count) }
{
    let mut positions = Positions::new(alloc);
    for n in 0..count {
        positions.push(u16_at(bytes, at + 2 * n))?;
    }
    Ok(positions)
}
