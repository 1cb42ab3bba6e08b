// The image of a row.
ghost use Rattle.std.specs.Prelude.{◌≡◌, true, false, IfOk, Err};
ghost use Rattle.rdb_meaning.specs.Contents.{is_too_long};
ghost use Rattle.record_format.specs.Rows.{IsRowImage};
ghost use Rattle.stored_rows.specs.Fitting.{IsRowFor};
ghost use Rattle.stored_rows.specs.declared.images.Unstored.TheVariants.{TooLong, Misfit};

use crate::fitting::is_row_for;
use rdb_types::{Field, Image, Value};
use record_format::{put_row, values_size};
use row_sizes::class_of;

/// Why a row has no image.
#[derive(Clone, Copy, Debug, PartialEq, Eq)]
pub enum Unstored {
    /// The values are none of the relation's fields, or can't be laid out.
    Misfit,
    /// The image would be longer than a line of the relation's class may be.
    TooLong,
}

/// The image of a row in this version of its relation. It is too long where it has more bytes than the class of the relation's lines.
pub fn row_image(version: u16, fields: &[Field], row: &[Value]) -> Result<Image, Unstored>
    ensures image { IfOk result (λ image. IsRowImage image version row.now) }
    ensures fits { IfOk result (λ image. IsRowFor version fields.now row.now) }
    ensures short { IfOk result (λ image. is_too_long fields.now row.now ≡ false) }
    ensures long { result ≡ Err TooLong → is_too_long fields.now row.now ≡ true }
    ensures misfit { result ≡ Err Misfit → IsRowFor version fields.now row.now → ⊥ }
{
    if !is_row_for(version, fields, row) {
        return Err(Unstored::Misfit);
    }
    // The version and the count of the values take 3 bytes.
    let limit = if class_of(fields) == 208 { 205 } else { 437 };
    if values_size(row, limit).is_none() {
        return Err(Unstored::TooLong);
    }
    let Ok(image) = put_row(version, row) else {
        return Err(Unstored::TooLong);
    };
    Ok(image)
}
