// Which expressions are known before a row is looked at.
ghost use Rattle.std.specs.Prelude.{◌≡◌, map};
ghost use Rattle.rdo_values.specs.Views.{expression_of, operations_of, applied_of};
ghost use Rattle.access_paths.specs.Serving.{is_before as is_before_of, are_before as are_before_of, kind_at as kind_at_of, turned as turned_of, is_bounding as is_bounding_of, is_equating as is_equating_of};

use rdb_types::FieldType;
use rdo_ast::syntax::Comparison;
use rdo_values::{BoundExpression, BoundOperation};

/// Whether each place that an expression reads is before this one, and it asks no other selection.
#[cycle(before)]
pub(crate) fn is_before(expr: &BoundExpression, start: usize) -> bool
    ensures { result ≡ is_before_of start (expression_of expr.now) }
{
    match expr {
        BoundExpression::Number(_, _) | BoundExpression::Text(_) => true,
        BoundExpression::Field(reference) => reference.place < start,
        BoundExpression::Negative(operand) => is_before(operand.get(), start),
        BoundExpression::Chain(first, operations) => {
            is_before(first.get(), start) && are_before(operations.as_slice(), start)
        }
        BoundExpression::Count(_)
        | BoundExpression::Statistic(_, _, _)
        | BoundExpression::Known(_, _) => false,
    }
}

#[cycle(before)]
fn are_before(operations: &[BoundOperation], start: usize) -> bool
    ensures { result ≡ are_before_of start (operations_of (map applied_of operations.now)) }
{
    for operation in operations {
        if !is_before(&operation.operand, start) {
            return false;
        }
    }
    true
}

/// The type of the field at a place, where the expression is that field.
pub(crate) fn kind_at(expr: &BoundExpression, place: usize) -> Option<FieldType>
    ensures { result ≡ kind_at_of place (expression_of expr.now) }
{
    match expr {
        BoundExpression::Field(reference) if reference.place == place => Some(reference.kind),
        _ => None,
    }
}

/// The comparison with its sides changed.
pub(crate) fn turned(op: Comparison) -> Comparison
    ensures { result ≡ turned_of op }
{
    match op {
        Comparison::Equal => Comparison::Equal,
        Comparison::NotEqual => Comparison::NotEqual,
        Comparison::Greater => Comparison::Less,
        Comparison::GreaterEqual => Comparison::LessEqual,
        Comparison::Less => Comparison::Greater,
        Comparison::LessEqual => Comparison::GreaterEqual,
    }
}

/// Whether a comparison says where values lie.
pub(crate) fn is_bounding(op: Comparison) -> bool
    ensures { result ≡ is_bounding_of op }
{
    !matches!(op, Comparison::NotEqual)
}

/// Whether a comparison asks for one value.
pub(crate) fn is_equating(op: Comparison) -> bool
    ensures { result ≡ is_equating_of op }
{
    matches!(op, Comparison::Equal)
}
