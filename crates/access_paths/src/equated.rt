// With which key a condition equates the fields of an index.
ghost use Rattle.std.specs.Prelude.{◌≡◌, true, ◌++◌, length, map, IfOk};
ghost use Rattle.rdo_values.specs.Views.{expression_of, testing_of, conjunction_with};
ghost use Rattle.rdo_values.specs.Filled.{value_at};
ghost use Rattle.rdo_ast.specs.declared.syntax.Comparison.TheVariants.{Equal as EqualTo};
ghost use Rattle.access_paths.specs.Serving.{is_before as is_before_of, asked_by, asked_of, asked_in, turned};
ghost use Rattle.access_paths.specs.Equated.{equal_value as equal_value_of, equated_with as equated_with_of, first_equated, with_equated as with_equated_of, key_at as key_at_of};

use crate::before::{is_before, is_equating, kind_at};
use crate::nearest::{meets, nearest};
use rdb_types::{FieldType, Items, NoMemory, Row, Scaled, Value};
use rdo_ast::syntax::Comparison;
use rdo_values::{BoundExpression, BoundTest, Stop, value};
use std::alloc::Global;

/// The value that a condition equates a field with.
#[derive(Drop)]
pub(crate) enum Equated {
    To(Value),
    /// No value of the field is equal to the one that is wanted.
    Never,
    /// The expression overflows.
    Lost,
}

/// The key that a condition equates the fields of an index with.
#[derive(Drop)]
pub(crate) enum EquatedKey {
    To(Row),
    /// No row has such a key.
    Never,
    /// An expression overflows.
    Lost,
}

fn equal_value(alloc: Global, kind: FieldType, other: &Scaled) -> Result<Equated, NoMemory>
    ensures { IfOk result (λ equated. equated ≡ equal_value_of kind other.now) }
{
    let Some(value) = nearest(alloc, kind, other)? else {
        return Ok(Equated::Never);
    };
    if meets(alloc, Comparison::Equal, kind, &value, other)? {
        Ok(Equated::To(value))
    } else {
        Ok(Equated::Never)
    }
}

fn equated_with(
    alloc: Global,
    kind: FieldType,
    other: &BoundExpression,
    rows: &[Value],
) -> Result<Equated, NoMemory>
    requires { is_before_of (length rows.now) (expression_of other.now) ≡ true }
    ensures { IfOk result (λ equated. equated ≡ equated_with_of kind (value_at rows.now (expression_of other.now))) }
{
    match value(alloc, other, rows) {
        Ok(other) => equal_value(alloc, kind, &other),
        Err(Stop::Overflow) => Ok(Equated::Lost),
        Err(Stop::Memory) => Err(NoMemory {}),
    }
}

/// The value that an equation asks for of the field at a place, where its left side is that field, and its right side is known before the field's row.
fn equated_if(
    alloc: Global,
    field: &BoundExpression,
    other: &BoundExpression,
    place: usize,
    rows: &[Value],
) -> Result<Option<Equated>, NoMemory>
    ensures { IfOk result (λ equated. equated ≡ first_equated rows.now (asked_by (length rows.now) place EqualTo (expression_of field.now) (expression_of other.now))) }
{
    let Some(kind) = kind_at(field, place) else {
        return Ok(None);
    };
    if is_before(other, rows.len()) {
        Ok(Some(equated_with(alloc, kind, other, rows)?))
    } else {
        Ok(None)
    }
}

fn equated_by_comparison(
    alloc: Global,
    op: Comparison,
    a: &BoundExpression,
    b: &BoundExpression,
    place: usize,
    rows: &[Value],
) -> Result<Option<Equated>, NoMemory>
    ensures { IfOk result (λ equated. equated ≡ first_equated rows.now
        (asked_by (length rows.now) place op (expression_of a.now) (expression_of b.now)
        ++ asked_by (length rows.now) place (turned op) (expression_of b.now) (expression_of a.now))) }
{
    if !is_equating(op) {
        return Ok(None);
    }
    if let Some(equated) = equated_if(alloc, a, b, place, rows)? {
        return Ok(Some(equated));
    }
    equated_if(alloc, b, a, place, rows)
}

fn equated_by_test(
    alloc: Global,
    test: &BoundTest,
    place: usize,
    rows: &[Value],
) -> Result<Option<Equated>, NoMemory>
    ensures { IfOk result (λ equated. equated ≡ first_equated rows.now (asked_of (length rows.now) place (testing_of test.now))) }
{
    match test {
        BoundTest::Compare(op, a, b) => equated_by_comparison(alloc, *op, a, b, place, rows),
        _ => Ok(None),
    }
}

/// The value that the first test equates the field at a place with.
fn equated_at(
    alloc: Global,
    tests: &[BoundTest],
    place: usize,
    rows: &[Value],
) -> Result<Option<Equated>, NoMemory>
    ensures { IfOk result (λ equated. equated ≡ first_equated rows.now (asked_in (length rows.now) place (conjunction_with (map testing_of tests.now)))) }
{
    for test in tests {
        if let Some(equated) = equated_by_test(alloc, test, place, rows)? {
            return Ok(Some(equated));
        }
    }
    Ok(None)
}

fn with_equated(key: EquatedKey, equated: Equated) -> Result<EquatedKey, NoMemory>
    ensures { IfOk result (λ longer. longer ≡ with_equated_of key equated) }
{
    match (key, equated) {
        (EquatedKey::Lost, _) | (_, Equated::Lost) => Ok(EquatedKey::Lost),
        (EquatedKey::Never, _) | (_, Equated::Never) => Ok(EquatedKey::Never),
        (EquatedKey::To(mut key), Equated::To(value)) => {
            key.push(value)?;
            Ok(EquatedKey::To(key))
        }
    }
}

/// The key that tests equate the fields at positions with, which are counted from the end of the rows before; none where one of them isn't equated.
pub(crate) fn key_at(
    alloc: Global,
    tests: &[BoundTest],
    positions: &[u16],
    rows: &[Value],
) -> Result<Option<EquatedKey>, NoMemory>
    ensures { IfOk result (λ key. key ≡ key_at_of rows.now (conjunction_with (map testing_of tests.now)) positions.now) }
{
    let mut key = EquatedKey::To(Items::new(alloc));
    for position in positions {
        let place = rows.len() + usize::from(*position);
        let Some(equated) = equated_at(alloc, tests, place, rows)? else {
            return Ok(None);
        };
        key = with_equated(key, equated)?;
    }
    Ok(Some(key))
}
