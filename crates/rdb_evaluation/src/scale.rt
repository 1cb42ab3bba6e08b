//! How many digits after the point an expression's numbers have. A TOTAL over no values is 0 with as many.
ghost use Rattle.std.specs.Prelude.{◌≡◌, ◌≤◌, min, map, IfOk};
ghost use Rattle.rdo_ast.specs.Views.{expression_of, operations_of, applied_of};
ghost use Rattle.rdb_meaning.specs.Evaluation.{bind_sources, referred, scale_of_place, scale_of as scale_of_expression, scale_after};

use crate::binding::opened;
use rdb_meaning::{Binding, FieldAt, Tables, binding_of, field_of};
use rdb_types::NoMemory;
use rdo_arithmetic::{capped, operated_scale};
use rdo_ast::syntax::{Expression, Operation, Range, Reference};
use std::alloc::Global;

fn field_scale(tables: &Tables, scope: &[Binding], reference: &Reference) -> u8
    ensures { result ≡ scale_of_place (referred reference.now tables.now scope.now) }
{
    let Some(binding) = binding_of(scope, &reference.variable) else {
        return 0;
    };
    let Some(relation) = tables.relation(&binding.relation) else {
        return 0;
    };
    match field_of(relation.fields.as_slice(), &reference.field) {
        Some(FieldAt { place: _, field }) => field.kind.scale,
        None => 0,
    }
}

/// The scale of an expression, or 19 for any past the greatest.
#[cycle(scales)]
pub(crate) fn scale_of(
    alloc: Global,
    tables: &Tables,
    scope: &[Binding],
    expr: &Expression,
) -> Result<u8, NoMemory>
    ensures { IfOk result (λ s. s ≡ min (scale_of_expression (expression_of expr.now) tables.now scope.now) 19) }
{
    match expr {
        Expression::Number(_, scale) => Ok(capped(*scale)),
        Expression::Text(_) => Ok(0),
        Expression::Field(reference) => Ok(capped(field_scale(tables, scope, reference))),
        Expression::Negative(operand) => scale_of(alloc, tables, scope, operand.get()),
        Expression::Chain(first, operations) => {
            let first = scale_of(alloc, tables, scope, first.get())?;
            chain_scale(alloc, tables, scope, first, operations.as_slice())
        }
        Expression::Count(_) => Ok(0),
        Expression::Statistic(_, operand, inner) => {
            let bound = opened(alloc, scope, inner.get().ranges.as_slice())?;
            scale_of(alloc, tables, bound.as_slice(), operand.get())
        }
    }
}

#[cycle(scales)]
fn chain_scale(
    alloc: Global,
    tables: &Tables,
    scope: &[Binding],
    first: u8,
    operations: &[Operation],
) -> Result<u8, NoMemory>
    requires { first ≤ 19 }
    ensures { IfOk result (λ s. s ≡ min (scale_after first (operations_of (map applied_of operations.now)) tables.now scope.now) 19) }
{
    let mut scale = first;
    for operation in operations {
        let operand = scale_of(alloc, tables, scope, &operation.operand)?;
        scale = operated_scale(operation.operator, scale, operand);
    }
    Ok(scale)
}

/// The scale of an expression over a selection's tuples, or 19 for any past the greatest.
pub(crate) fn operand_scale(
    alloc: Global,
    tables: &Tables,
    scope: &[Binding],
    ranges: &[Range],
    operand: &Expression,
) -> Result<u8, NoMemory>
    ensures { IfOk result (λ s. s ≡ min (scale_of_expression (expression_of operand.now) tables.now (bind_sources ranges.now scope.now)) 19) }
{
    let bound = opened(alloc, scope, ranges)?;
    scale_of(alloc, tables, bound.as_slice(), operand)
}
