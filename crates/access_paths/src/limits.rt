// Between which values a condition wants a field.
ghost use Rattle.std.specs.Prelude.{◌≡◌, true, [], ◌∷◌, ◌++◌, length, map, IfOk};
ghost use Rattle.rdo_values.specs.Views.{expression_of, testing_of, conjunction_with};
ghost use Rattle.rdo_values.specs.Filled.{value_at};
ghost use Rattle.rdo_ast.specs.declared.syntax.Comparison.TheVariants as by;
ghost use Rattle.access_paths.specs.Serving.{is_before as is_before_of, asked_by, asked_of, turned as turned_of};
ghost use Rattle.access_paths.specs.Limits.{open_end, nothing as nothing_of, limits_by as limits_by_of, limits_of as limits_of_value, highest as highest_of, lowest as lowest_of, lowest_high as lowest_high_of, meet as meet_of, narrowed as narrowed_of, narrowed_by as narrowed_by_of, narrowed_from, limits_at as limits_at_of, bounds_of as bounds_of_limits};

use crate::before::{is_before, is_bounding, kind_at, turned};
use crate::nearest::{meets, nearest};
use rdb_types::{Copied, FieldType, Items, NoMemory, Row, Scaled, Value, value_order};
use rdo_ast::syntax::Comparison;
use rdo_values::{BoundExpression, BoundTest, Stop, value};
use sorted_index_laws::Bounds;
use std::alloc::Global;
use std::cmp::Ordering;

/// An end of a field's limits, and whether it is within them.
#[derive(Drop)]
pub(crate) struct End {
    pub value: Value,
    pub included: bool,
}

/// The values that a field may have: from a low end up to a high one, where there is one. No missing value is among them.
#[derive(Drop)]
pub(crate) struct Limits {
    pub low: End,
    pub high: Option<End>,
}

/// What a condition asks of a field.
#[derive(Drop)]
pub(crate) enum Limited {
    Nothing,
    Within(Limits),
    /// An expression overflows that the field is compared with.
    Lost,
}

fn above_missing() -> End
    ensures { result ≡ open_end }
{
    End {
        value: Value::Missing,
        included: false,
    }
}

/// No value is within.
pub(crate) fn nothing() -> Limits
    ensures { result ≡ nothing_of }
{
    Limits {
        low: above_missing(),
        high: Some(above_missing()),
    }
}

fn limits_by(alloc: Global, op: Comparison, end: End) -> Result<Limits, NoMemory>
    ensures { IfOk result (λ limits. limits ≡ limits_by_of op end) }
{
    let (low, high) = match op {
        Comparison::Equal => {
            let low = End {
                value: end.value.copied(alloc)?,
                included: end.included,
            };
            (low, Some(end))
        }
        Comparison::Greater | Comparison::GreaterEqual => (end, None),
        Comparison::Less | Comparison::LessEqual => (above_missing(), Some(end)),
        Comparison::NotEqual => (above_missing(), None),
    };
    Ok(Limits { low, high })
}

/// The values of a field that meet a comparison.
fn limits_of(
    alloc: Global,
    op: Comparison,
    kind: FieldType,
    other: &Scaled,
) -> Result<Limits, NoMemory>
    ensures { IfOk result (λ limits. limits ≡ limits_of_value op kind other.now) }
{
    let Some(value) = nearest(alloc, kind, other)? else {
        return Ok(nothing());
    };
    let included = meets(alloc, op, kind, &value, other)?;
    limits_by(alloc, op, End { value, included })
}

fn highest(a: End, b: End) -> End
    ensures { result ≡ highest_of a b }
{
    match value_order(&a.value, &b.value) {
        Ordering::Less => b,
        Ordering::Greater => a,
        Ordering::Equal => { if a.included { b } else { a } }
    }
}

fn lowest(a: End, b: End) -> End
    ensures { result ≡ lowest_of a b }
{
    match value_order(&a.value, &b.value) {
        Ordering::Less => a,
        Ordering::Greater => b,
        Ordering::Equal => { if a.included { b } else { a } }
    }
}

fn lowest_high(a: Option<End>, b: Option<End>) -> Option<End>
    ensures { result ≡ lowest_high_of a b }
{
    match (a, b) {
        (Some(a), Some(b)) => Some(lowest(a, b)),
        (a, None) => a,
        (None, b) => b,
    }
}

fn meet(a: Limits, b: Limits) -> Limits
    ensures { result ≡ meet_of a b }
{
    Limits {
        low: highest(a.low, b.low),
        high: lowest_high(a.high, b.high),
    }
}

fn narrowed(limited: Limited, limits: Limits) -> Limited
    ensures { result ≡ narrowed_of limited limits }
{
    match limited {
        Limited::Nothing => Limited::Within(limits),
        Limited::Within(before) => Limited::Within(meet(before, limits)),
        Limited::Lost => Limited::Lost,
    }
}

/// Narrows limits by a comparison of the field with an expression.
fn narrowed_by(
    alloc: Global,
    limited: Limited,
    op: Comparison,
    kind: FieldType,
    other: &BoundExpression,
    rows: &[Value],
) -> Result<Limited, NoMemory>
    requires { is_before_of (length rows.now) (expression_of other.now) ≡ true }
    ensures { IfOk result (λ limits. limits ≡ narrowed_by_of op kind (value_at rows.now (expression_of other.now)) limited) }
{
    match value(alloc, other, rows) {
        Ok(other) => Ok(narrowed(limited, limits_of(alloc, op, kind, &other)?)),
        Err(Stop::Overflow) => Ok(Limited::Lost),
        Err(Stop::Memory) => Err(NoMemory {}),
    }
}

/// Narrows the limits of the field at a place by a comparison, where its left side is that field, and its right side is known before the field's row.
fn narrowed_if(
    alloc: Global,
    limited: Limited,
    op: Comparison,
    field: &BoundExpression,
    other: &BoundExpression,
    place: usize,
    rows: &[Value],
) -> Result<Limited, NoMemory>
    ensures { IfOk result (λ limits. limits ≡ narrowed_from rows.now limited (asked_by (length rows.now) place op (expression_of field.now) (expression_of other.now))) }
{
    let Some(kind) = kind_at(field, place) else {
        return Ok(limited);
    };
    if is_bounding(op) && is_before(other, rows.len()) {
        narrowed_by(alloc, limited, op, kind, other, rows)
    } else {
        Ok(limited)
    }
}

fn narrowed_by_comparison(
    alloc: Global,
    limited: Limited,
    op: Comparison,
    a: &BoundExpression,
    b: &BoundExpression,
    place: usize,
    rows: &[Value],
) -> Result<Limited, NoMemory>
    ensures { IfOk result (λ limits. limits ≡ narrowed_from rows.now limited
        (asked_by (length rows.now) place op (expression_of a.now) (expression_of b.now)
        ++ asked_by (length rows.now) place (turned_of op) (expression_of b.now) (expression_of a.now))) }
{
    let limited = narrowed_if(alloc, limited, op, a, b, place, rows)?;
    narrowed_if(alloc, limited, turned(op), b, a, place, rows)
}

fn narrowed_between(
    alloc: Global,
    limited: Limited,
    field: &BoundExpression,
    low: &BoundExpression,
    high: &BoundExpression,
    place: usize,
    rows: &[Value],
) -> Result<Limited, NoMemory>
    ensures { IfOk result (λ limits. limits ≡ narrowed_from rows.now limited
        (asked_by (length rows.now) place by.GreaterEqual (expression_of field.now) (expression_of low.now)
        ++ asked_by (length rows.now) place by.LessEqual (expression_of field.now) (expression_of high.now))) }
{
    let limited = narrowed_if(
        alloc,
        limited,
        Comparison::GreaterEqual,
        field,
        low,
        place,
        rows,
    )?;
    narrowed_if(
        alloc,
        limited,
        Comparison::LessEqual,
        field,
        high,
        place,
        rows,
    )
}

fn narrowed_by_test(
    alloc: Global,
    limited: Limited,
    test: &BoundTest,
    place: usize,
    rows: &[Value],
) -> Result<Limited, NoMemory>
    ensures { IfOk result (λ limits. limits ≡ narrowed_from rows.now limited (asked_of (length rows.now) place (testing_of test.now))) }
{
    match test {
        BoundTest::Compare(op, a, b) => {
            narrowed_by_comparison(alloc, limited, *op, a, b, place, rows)
        }
        BoundTest::Between(a, low, high) => {
            if is_before(low, rows.len()) && is_before(high, rows.len()) {
                narrowed_between(alloc, limited, a, low, high, place, rows)
            } else {
                Ok(limited)
            }
        }
        _ => Ok(limited),
    }
}

/// What tests that are joined by AND ask of the field at a place of the row of all variables, where the values before the field's row are known.
pub(crate) fn limits_at(
    alloc: Global,
    tests: &[BoundTest],
    place: usize,
    rows: &[Value],
) -> Result<Limited, NoMemory>
    ensures { IfOk result (λ limited. limited ≡ limits_at_of rows.now place (conjunction_with (map testing_of tests.now))) }
{
    let mut limited = Limited::Nothing;
    for test in tests {
        limited = narrowed_by_test(alloc, limited, test, place, rows)?;
    }
    Ok(limited)
}

fn one_value(alloc: Global, value: Value) -> Result<Row, NoMemory>
    ensures { IfOk result (λ row. row ≡ value ∷ []) }
{
    let mut row = Items::new(alloc);
    row.push(value)?;
    Ok(row)
}

/// The keys whose first value is within limits.
pub(crate) fn bounds_of(alloc: Global, limits: Limits) -> Result<Bounds, NoMemory>
    ensures { IfOk result (λ bounds. bounds ≡ bounds_of_limits limits) }
{
    let Limits { low, high } = limits;
    let low_in = low.included;
    let low = Some(one_value(alloc, low.value)?);
    match high {
        Some(high) => Ok(Bounds {
            low,
            low_in,
            high_in: high.included,
            high: Some(one_value(alloc, high.value)?),
        }),
        None => Ok(Bounds {
            low,
            low_in,
            high: None,
            high_in: false,
        }),
    }
}
