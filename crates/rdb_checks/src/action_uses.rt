ghost use Rattle.std.specs.Prelude.{map};
ghost use Rattle.rdo_ast.specs.Views.{assignment_of, shown_of, act_of, acts_of};
ghost use Rattle.rdb_meaning.specs.Evaluation.{bound_as};
ghost use Rattle.rdb_checks.specs.Answers.{Finds};
ghost use Rattle.rdb_checks.specs.Unreserved.{assignments_unreserved, shown_unreserved, change_unreserved, act_unreserved, acts_unreserved};

use crate::scopes::scope_with_ranges;
use crate::stop::Stop;
use crate::uses::{check_expression_uses, check_inner_uses, check_use};
use rdb_meaning::{Scope, binding_of};
use rdb_types::Chars;
use rdo_ast::syntax::{Action, Assign, PrintItem, Reservation};
use std::alloc::Global;

fn check_assignments_uses(
    alloc: Global,
    reservations: &[Reservation],
    assigns: &[Assign],
) -> Result<(), Stop>
    ensures { Finds result
        (assignments_unreserved reservations.now (map assignment_of assigns.now)) }
{
    for assign in assigns {
        check_expression_uses(alloc, reservations, &assign.right)?;
    }
    Ok(())
}

fn check_items_uses(
    alloc: Global,
    reservations: &[Reservation],
    items: &[PrintItem],
) -> Result<(), Stop>
    ensures { Finds result (shown_unreserved reservations.now (map shown_of items.now)) }
{
    for item in items {
        if let PrintItem::Value(expression) = item {
            check_expression_uses(alloc, reservations, expression)?;
        }
    }
    Ok(())
}

/// Checks that a variable's relation may be changed.
fn check_change(
    alloc: Global,
    reservations: &[Reservation],
    scope: &Scope,
    variable: &Chars,
) -> Result<(), Stop>
    ensures { Finds result (change_unreserved reservations.now (bound_as variable.now scope.now)) }
{
    match binding_of(scope.as_slice(), variable) {
        Some(binding) => check_use(alloc, reservations, &binding.relation, true),
        None => Ok(()),
    }
}

/// Checks the relations that an action reads or changes, with those of the actions in it.
#[cycle(action_uses)]
pub fn check_action_uses(
    alloc: Global,
    reservations: &[Reservation],
    scope: &Scope,
    action: &Action,
) -> Result<(), Stop>
    ensures { Finds result (act_unreserved reservations.now (act_of action.now) scope.now) }
{
    match action {
        Action::Store(range, assigns) => {
            check_use(alloc, reservations, &range.relation, true)?;
            check_assignments_uses(alloc, reservations, assigns.as_slice())
        }
        Action::For(selection, body) => {
            let inner = &selection.inner;
            check_inner_uses(alloc, reservations, inner)?;
            let bound = scope_with_ranges(alloc, scope, inner.ranges.as_slice())?;
            check_body_uses(alloc, reservations, &bound, body.as_slice())
        }
        Action::Print(items) => check_items_uses(alloc, reservations, items.as_slice()),
        Action::Modify(variable, assigns) => {
            check_change(alloc, reservations, scope, variable)?;
            check_assignments_uses(alloc, reservations, assigns.as_slice())
        }
        Action::Erase(variable) => check_change(alloc, reservations, scope, variable),
    }
}

#[cycle(action_uses)]
fn check_body_uses(
    alloc: Global,
    reservations: &[Reservation],
    scope: &Scope,
    body: &[Action],
) -> Result<(), Stop>
    ensures { Finds result
        (acts_unreserved reservations.now (acts_of (map act_of body.now)) scope.now) }
{
    for action in body {
        check_action_uses(alloc, reservations, scope, action)?;
    }
    Ok(())
}
