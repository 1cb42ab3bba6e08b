//! The length of a row's image.
ghost use Rattle.std.specs.Prelude.{◌≡◌, ◌+◌, IfOk};
ghost use Rattle.rdb_meaning.specs.Contents.{value_length as length_of, is_too_long as too_long};

use rdb_types::{Field, NoMemory, Value};
use row_sizes::class_of;

fn value_length(value: &Value) -> Result<usize, NoMemory>
    ensures { IfOk result (λ n. n ≡ length_of value.now) }
{
    match value {
        Value::Missing => Ok(1),
        Value::Number(_) => Ok(9),
        Value::Text(text) => sum(text.len(), 3),
    }
}

// A sum that is no length of anything in memory counts as want of it.
fn sum(a: usize, b: usize) -> Result<usize, NoMemory>
    ensures { IfOk result (λ n. n ≡ a + b) }
{
    a.checked_add(b).ok_or(NoMemory {})
}

/// Whether the row's image is longer than its class holds.
pub fn is_too_long(fields: &[Field], row: &[Value]) -> Result<bool, NoMemory>
    ensures { IfOk result (λ answer. answer ≡ too_long fields.now row.now) }
{
    let mut length = 3;
    for value in row {
        length = sum(length, value_length(value)?)?;
    }
    Ok(usize::from(class_of(fields)) < length)
}
