// The images of rows.
ghost use Rattle.std.specs.Prelude.{◌≡◌, ◌≤◌, ◌<◌, ◌↔◌, ℕ, List, Some, length, IfSome, IfNone, IfOk, IsErr};
ghost use Rattle.std.specs.List.{All};
ghost use Rattle.slot_fields.specs.Fields.{size};
ghost use Rattle.record_format.specs.Values.{IsStorable, AreBytes};
ghost use Rattle.record_format.specs.Rows.{row_fields, IsVersion, IsRowImage};

use crate::value::{put_values, read_values, values_size};
use rdb_types::{Image, NoMemory, Row, Value};
use slot_fields::{put_u8, put_u16, u8_at, u16_at};
use std::alloc::Global;

/// A row, and the version of its relation that it was stored in.
#[derive(Debug, Drop)]
pub struct VersionedRow {
    pub version: u16,
    pub row: Row,
}

/// The image would be longer than one of its kind may be.
#[derive(Clone, Copy, Debug, PartialEq, Eq)]
pub struct TooLong {}

/// The image of a row: the version of its relation in 2 bytes, the count of its values in 1 byte, and its values. It is refused where it would have more than 440 bytes.
pub fn put_row(version: u16, row: &[Value]) -> Result<Image, TooLong>
    requires version { IsVersion version }
    requires count { length row.now < 256 }
    requires storable { All IsStorable row.now }
    ensures image { IfOk result (λ image. IsRowImage image version row.now) }
    ensures too_long { IsErr result ↔ (440 < size (row_fields version row.now)) }
{
    if values_size(row, 437).is_none() {
        return Err(TooLong {});
    }
    let mut slot = [0; 440];
    put_u16(&mut slot, 0, version);
    put_u8(&mut slot, 2, row.len() as u8);
    let end = put_values(&mut slot, 3, row);
    Ok(Image::from_bytes(&slot[..end]))
}

/// The row that bytes are the image of. None is answered only where they are none.
pub fn read_row(alloc: Global, bytes: &[u8]) -> Result<Option<VersionedRow>, NoMemory>
    ensures found { IfOk result (λ read. IfSome read (λ found. IsRowImage bytes.now found.version found.row)) }
    ensures none { IfOk result (λ read. IfNone read ((version : ℕ) (row : _) → IsRowImage bytes.now version row → ⊥)) }

    // A row that was laid out is read again.
    ensures again { (row : _) → IsRowImage bytes.now row.version row.row → IfOk result (λ read. read ≡ Some row) }
{
    if bytes.len() < 3 {
        return Ok(None);
    }
    let version = u16_at(bytes, 0);
    let count = u8_at(bytes, 2);
    if version < 1 || version > 50 {
        return Ok(None);
    }
    let Some(row) = read_values(alloc, bytes, 3)? else {
        return Ok(None);
    };
    if row.len() != count as usize {
        return Ok(None);
    }
    Ok(Some(VersionedRow { version, row }))
}

/// Bytes are the image of one row at most.
pub fn one_row()
    ensures version { (bytes : List ℕ) (v w : ℕ) (a b : _) → IsRowImage bytes v a → IsRowImage bytes w b → v ≡ w }
    ensures row { (bytes : List ℕ) (v w : ℕ) (a b : _) → IsRowImage bytes v a → IsRowImage bytes w b → a ≡ b }
{}

/// A row has one image at most.
pub fn one_image()
    ensures { (a b : List ℕ) (version : ℕ) (row : _) → AreBytes a → AreBytes b → IsRowImage a version row → IsRowImage b version row → a ≡ b }
{}
