// Whether values may stand in the fields of a relation.
ghost use Rattle.std.specs.Prelude.{◌≡◌, true, false};
ghost use Rattle.stored_rows.specs.Fitting.{IsRowFor};

use rdb_types::{Field, Value};
use record_format::are_storable;
use relation_rows::are_values_of;

/// Whether values can be stored as a row in this version of a relation with these fields.
pub(crate) fn is_row_for(version: u16, fields: &[Field], row: &[Value]) -> bool
    ensures yes { result ≡ true → IsRowFor version fields.now row.now }
    ensures no { result ≡ false → IsRowFor version fields.now row.now → ⊥ }
{
    1 <= version
        && version <= 50
        && row.len() <= 255
        && row.len() == fields.len()
        && are_storable(row)
        && are_values_of(fields, row)
}
