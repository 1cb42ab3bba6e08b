// How rows stand on lines.
ghost use Rattle.std.specs.Prelude.{◌≡◌, ℕ, IfOk, IfSome, IfNone, length, true, false};
ghost use Rattle.relation_rows.specs.Stored.{IsRowOf, AreValuesIn, is_number_of as number_may_stand, is_value_of as may_stand_in, are_values_of as may_stand, count_in as fields_in, completed};

use rdb_types::{DataType, Dbkey, Field, FieldType, Items, NoMemory, Row, Value};
use sorted_index_laws::{VersionedRow, read_row};
use std::alloc::Global;

/// A relation as its rows are stored: its logical area, the version that it has now, and its fields, those of later versions behind the others.
#[derive(Clone, Copy)]
pub struct StoredRelation<'a> {
    pub area: u32,
    pub version: u16,
    pub fields: &'a [Field],
}

/// A row and its Dbkey.
#[derive(Drop)]
pub struct StoredRow {
    pub key: Dbkey,
    pub row: Row,
}

/// The rows of a relation, in the order of their Dbkeys.
pub type Rows = Items<StoredRow>;

fn is_number_of(kind: DataType, n: i64) -> bool
    ensures { result ≡ number_may_stand kind n }
{
    match kind {
        DataType::Word => i16::try_from(n).is_ok(),
        DataType::Longword => i32::try_from(n).is_ok(),
        DataType::Quadword => true,
        DataType::Text => false,
    }
}

fn is_value_of(kind: &FieldType, value: &Value) -> bool
    ensures { result ≡ may_stand_in kind.now value.now }
{
    match value {
        Value::Missing => true,
        Value::Number(n) => is_number_of(kind.kind, *n),
        Value::Text(text) => kind.kind == DataType::Text && text.len() <= kind.size as usize,
    }
}

/// Whether each value may stand in the field of its place; there may be fewer values than fields.
pub fn are_values_of(fields: &[Field], values: &[Value]) -> bool
    ensures { result ≡ may_stand fields.now values.now }
{
    let mut left = fields;
    for value in values {
        let [field, rest @ ..] = left else {
            return false;
        };
        if !is_value_of(&field.kind, value) {
            return false;
        }
        left = rest;
    }
    true
}

fn count_in(version: u16, fields: &[Field]) -> usize
    ensures { result ≡ fields_in version fields.now }
{
    fields
        .iter()
        .filter(|field| field.version <= version)
        .count()
}

fn are_values_in(relation: &StoredRelation<'_>, found: &VersionedRow) -> bool
    ensures yes { result ≡ true → AreValuesIn relation.now found.now.version found.now.row }
    ensures no { result ≡ false → AreValuesIn relation.now found.now.version found.now.row → ⊥ }
{
    let (version, values) = (found.version, found.row.as_slice());
    version <= relation.version
        && values.len() == count_in(version, relation.fields)
        && are_values_of(relation.fields, values)
}

// Missing values for the fields that came later.
fn complete(row: &mut Row, fields: &[Field]) -> Result<(), NoMemory>
    ensures { IfOk result (λ _. row.new ≡ completed fields.now row.old) }
{
    for _ in row.len()..fields.len() {
        row.push(Value::Missing)?;
    }
    Ok(())
}

/// The row that bytes are the image of. None is answered only where they are none of the relation.
pub(crate) fn row_of(
    alloc: Global,
    relation: &StoredRelation<'_>,
    bytes: &[u8],
) -> Result<Option<Row>, NoMemory>
    ensures found { IfOk result (λ read. IfSome read (IsRowOf relation.now bytes.now)) }
    ensures none { IfOk result (λ read. IfNone read ((row : _) → IsRowOf relation.now bytes.now row → ⊥)) }
{
    let Some(found) = read_row(alloc, bytes)? else {
        return Ok(None);
    };
    if !are_values_in(relation, &found) {
        return Ok(None);
    }
    let mut row = found.row;
    complete(&mut row, relation.fields)?;
    Ok(Some(row))
}
