//! What bound expressions give at a row.
ghost use Rattle.std.specs.Prelude.{◌≡◌, map};
ghost use Rattle.rdb_meaning.specs.declared.tables.Tables.{Tables};
ghost use Rattle.rdb_meaning.specs.Numbers.{is};
ghost use Rattle.rdb_meaning.specs.Evaluation.{Scope, computed};
ghost use Rattle.rdo_arithmetic.specs.Answers.{Gives};
ghost use Rattle.rdo_values.specs.Views.{expression_of, operations_of, applied_of};
ghost use Rattle.rdo_values.specs.Named.{named};
ghost use Rattle.rdo_values.specs.Rows.{row_of, variables_of};
ghost use Rattle.rdo_values.specs.Places.{IsBound};
ghost use Rattle.rdo_values.specs.Known.{IsKnown, IsSettled, AreSettled, value_known};
ghost use Rattle.rdo_values.specs.Filled.{read_at as value_read, value_at, value_after};

use crate::bound::{BoundExpression, BoundOperation, BoundReference, KnownValue};
use rdb_types::{Copied, Scaled, Value};
use rdo_arithmetic::{Stop, absent, arithmetic, negated, scaled};
use std::alloc::Global;

/// The value at a reference's place, with its field's scale.
fn read_at(alloc: Global, rows: &[Value], reference: &BoundReference) -> Result<Scaled, Stop>
    ensures { Gives result (is (value_read rows.now reference.now)) }
{
    match rows.get(reference.place) {
        Some(value) => scaled(alloc, &reference.kind, value),
        None => Ok(absent()),
    }
}

fn known_value(alloc: Global, known: &KnownValue) -> Result<Scaled, Stop>
    ensures { Gives result (value_known known.now) }
{
    match known {
        KnownValue::Missing => Ok(absent()),
        KnownValue::Number(digits, scale) => Ok(Scaled {
            value: Value::Number(*digits),
            scale: *scale,
        }),
        KnownValue::Text(text) => Ok(Scaled {
            value: Value::Text(text.copied(alloc)?),
            scale: 0,
        }),
        KnownValue::Overflow => Err(Stop::Overflow),
    }
}

/// The value of an expression in which no statistic is left.
#[cycle(values)]
pub(crate) fn value_of(
    alloc: Global,
    expr: &BoundExpression,
    rows: &[Value],
) -> Result<Scaled, Stop>
    requires { IsSettled (expression_of expr.now) }
    ensures { Gives result (value_at rows.now (expression_of expr.now)) }
{
    match expr {
        BoundExpression::Number(digits, scale) => Ok(Scaled {
            value: Value::Number(*digits),
            scale: *scale,
        }),
        BoundExpression::Text(text) => Ok(Scaled {
            value: Value::Text(text.copied(alloc)?),
            scale: 0,
        }),
        BoundExpression::Field(reference) => read_at(alloc, rows, reference),
        BoundExpression::Negative(operand) => {
            let value = value_of(alloc, operand.get(), rows)?;
            negated(&value)
        }
        BoundExpression::Chain(first, operations) => {
            let first = value_of(alloc, first.get(), rows)?;
            chain_value(alloc, first, operations.as_slice(), rows)
        }
        BoundExpression::Count(_) | BoundExpression::Statistic(_, _, _) => unreachable!(),
        BoundExpression::Known(_, known) => known_value(alloc, known),
    }
}

/// A chain's value, taken from the left to the right.
#[cycle(values)]
fn chain_value(
    alloc: Global,
    first: Scaled,
    operations: &[BoundOperation],
    rows: &[Value],
) -> Result<Scaled, Stop>
    requires { AreSettled (operations_of (map applied_of operations.now)) }
    ensures { Gives result (value_after rows.now (is first) (operations_of (map applied_of operations.now))) }
{
    let mut value = first;
    for operation in operations {
        let operand = value_of(alloc, &operation.operand, rows)?;
        value = arithmetic(operation.operator, &value, &operand)?;
    }
    Ok(value)
}

/// The value of an expression at a row, which has the values of all bound variables, the outermost first. Where a number is outside 64 bits or has more than 18 digits after the point, the answer is `Stop::Overflow`.
pub fn value(alloc: Global, expr: &BoundExpression, rows: &[Value]) -> Result<Scaled, Stop>
    requires { IsSettled (expression_of expr.now) }
    ensures row { Gives result (value_at rows.now (expression_of expr.now)) }
    ensures named { (t : Tables) (scope : Scope) → IsBound (expression_of expr.now) t (variables_of scope)
        → IsKnown (expression_of expr.now) t scope → row_of t scope ≡ rows.now
        → Gives result (computed (named (expression_of expr.now)) t scope) }
{
    value_of(alloc, expr, rows)
}
