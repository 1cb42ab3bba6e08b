// Actions that mean the same over all tables.
ghost use Rattle.std.specs.Prelude.{◌≡◌, map};
ghost use Rattle.rdo_ast.specs.Views.{expression_of, applied_of, operations_of, shown_of, act_of};
ghost use Rattle.rdo_exec.specs.Ways.{is_plain, are_plain, all_plain, is_bare};

use rdo_ast::syntax::{Action, Expression, Operation, PrintItem};

#[cycle(plainness)]
fn is_plain(expression: &Expression) -> bool
    ensures { result ≡ is_plain (expression_of expression.now) }
{
    match expression {
        Expression::Number(_, _) | Expression::Text(_) | Expression::Field(_) => true,
        Expression::Negative(operand) => is_plain(operand.get()),
        Expression::Chain(first, operations) => {
            is_plain(first.get()) && are_plain(operations.as_slice())
        }
        Expression::Count(_) | Expression::Statistic(_, _, _) => false,
    }
}

#[cycle(plainness)]
fn are_plain(operations: &[Operation]) -> bool
    ensures { result ≡ are_plain (operations_of (map applied_of operations.now)) }
{
    for operation in operations {
        if !is_plain(&operation.operand) {
            return false;
        }
    }
    true
}

fn all_plain(items: &[PrintItem]) -> bool
    ensures { result ≡ all_plain (map shown_of items.now) }
{
    for item in items {
        if let PrintItem::Value(expression) = item {
            if !is_plain(expression) {
                return false;
            }
        }
    }
    true
}

/// Whether an action that stands alone reads no relation: a PRINT without statistics, and MODIFY and ERASE, since no variable is bound around them.
pub(crate) fn is_bare(action: &Action) -> bool
    ensures { result ≡ is_bare (act_of action.now) }
{
    match action {
        Action::Print(items) => all_plain(items.as_slice()),
        Action::Modify(_, _) | Action::Erase(_) => true,
        Action::Store(_, _) | Action::For(_, _) => false,
    }
}
