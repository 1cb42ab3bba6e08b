//! How many digits after the point a bound expression's numbers have.
ghost use Rattle.std.specs.Prelude.{◌≡◌, ◌≤◌, min, map};
ghost use Rattle.rdb_meaning.specs.declared.tables.Tables.{Tables};
ghost use Rattle.rdb_meaning.specs.Evaluation.{Scope, scale_of as scale_of_expression};
ghost use Rattle.rdo_values.specs.Views.{expression_of, operations_of, applied_of};
ghost use Rattle.rdo_values.specs.Named.{named};
ghost use Rattle.rdo_values.specs.Rows.{variables_of};
ghost use Rattle.rdo_values.specs.Places.{IsBound};
ghost use Rattle.rdo_values.specs.Scales.{scale_in, scale_behind};

use crate::bound::{BoundExpression, BoundOperation};
use rdo_arithmetic::{capped, operated_scale};

#[cycle(scales)]
fn scale_of(expr: &BoundExpression) -> u8
    ensures { result ≡ min (scale_in (expression_of expr.now)) 19 }
{
    match expr {
        BoundExpression::Number(_, scale) => capped(*scale),
        BoundExpression::Text(_) | BoundExpression::Count(_) => 0,
        BoundExpression::Field(reference) => capped(reference.kind.scale),
        BoundExpression::Negative(operand) => scale_of(operand.get()),
        BoundExpression::Chain(first, operations) => {
            let first = scale_of(first.get());
            chain_scale(first, operations.as_slice())
        }
        BoundExpression::Statistic(_, operand, _) => scale_of(operand.get()),
        BoundExpression::Known(statistic, _) => scale_of(statistic.get()),
    }
}

#[cycle(scales)]
fn chain_scale(first: u8, operations: &[BoundOperation]) -> u8
    requires { first ≤ 19 }
    ensures { result ≡ min (scale_behind first (operations_of (map applied_of operations.now))) 19 }
{
    let mut scale = first;
    for operation in operations {
        let operand = scale_of(&operation.operand);
        scale = operated_scale(operation.operator, scale, operand);
    }
    scale
}

/// The scale of a bound expression, or 19 for any past the greatest. No tables are wanted, since each reference has its field's type.
pub fn scale(expr: &BoundExpression) -> u8
    ensures own { result ≡ min (scale_in (expression_of expr.now)) 19 }
    ensures named { (t : Tables) (scope : Scope) → IsBound (expression_of expr.now) t (variables_of scope)
        → result ≡ min (scale_of_expression (named (expression_of expr.now)) t scope) 19 }
{
    scale_of(expr)
}
