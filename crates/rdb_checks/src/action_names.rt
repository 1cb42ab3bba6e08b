ghost use Rattle.std.specs.Prelude.{map};
ghost use Rattle.rdo_ast.specs.Views.{assignment_of, shown_of, act_of, acts_of};
ghost use Rattle.rdb_meaning.specs.Checks.{first_refusal, reference_names, clause_names, assignment_names, shown_names, act_names, acts_names};
ghost use Rattle.rdb_checks.specs.Answers.{Finds};

use crate::names::{
    check_expression_names, check_range_names, check_reference_names, check_variable_name,
    check_with_names, checked_scope,
};
use crate::stop::{Stop, no_such};
use rdb_meaning::{Scope, Tables, extended, same_name};
use rdb_types::Chars;
use rdo_ast::syntax::{Action, Assign, Clause, PrintItem, Reference, SortKey};
use std::alloc::Global;

fn check_keys_names(
    alloc: Global,
    tables: &Tables,
    scope: &Scope,
    keys: &[SortKey],
) -> Result<(), Stop>
    ensures { Finds result
        (first_refusal (λ k. reference_names k.reference tables.now scope.now) keys.now) }
{
    for key in keys {
        check_reference_names(alloc, tables, scope, &key.reference)?;
    }
    Ok(())
}

fn check_references_names(
    alloc: Global,
    tables: &Tables,
    scope: &Scope,
    references: &[Reference],
) -> Result<(), Stop>
    ensures { Finds result
        (first_refusal (λ r. reference_names r tables.now scope.now) references.now) }
{
    for reference in references {
        check_reference_names(alloc, tables, scope, reference)?;
    }
    Ok(())
}

fn check_clause_names(
    alloc: Global,
    tables: &Tables,
    scope: &Scope,
    clause: &Clause,
) -> Result<(), Stop>
    ensures { Finds result (clause_names clause.now tables.now scope.now) }
{
    match clause {
        Clause::Sorted(keys) => check_keys_names(alloc, tables, scope, keys.as_slice()),
        Clause::Reduced(references) => {
            check_references_names(alloc, tables, scope, references.as_slice())
        }
    }
}

fn check_clauses_names(
    alloc: Global,
    tables: &Tables,
    scope: &Scope,
    clauses: &[Clause],
) -> Result<(), Stop>
    ensures { Finds result (first_refusal (λ c. clause_names c tables.now scope.now) clauses.now) }
{
    for clause in clauses {
        check_clause_names(alloc, tables, scope, clause)?;
    }
    Ok(())
}

/// Checks an assignment to a field of the variable that is stored or modified.
fn check_assignment_names(
    alloc: Global,
    tables: &Tables,
    scope: &Scope,
    variable: &Chars,
    assign: &Assign,
) -> Result<(), Stop>
    ensures { Finds result
        (assignment_names variable.now tables.now scope.now (assignment_of assign.now)) }
{
    if same_name(variable, &assign.left.variable) {
        check_reference_names(alloc, tables, scope, &assign.left)?;
    } else {
        no_such(alloc, &assign.left.variable)?;
    }
    check_expression_names(alloc, tables, scope, &assign.right)
}

fn check_assignments_names(
    alloc: Global,
    tables: &Tables,
    scope: &Scope,
    variable: &Chars,
    assigns: &[Assign],
) -> Result<(), Stop>
    ensures { Finds result
        (first_refusal (assignment_names variable.now tables.now scope.now) (map assignment_of assigns.now)) }
{
    for assign in assigns {
        check_assignment_names(alloc, tables, scope, variable, assign)?;
    }
    Ok(())
}

fn check_item_names(
    alloc: Global,
    tables: &Tables,
    scope: &Scope,
    item: &PrintItem,
) -> Result<(), Stop>
    ensures { Finds result (shown_names tables.now scope.now (shown_of item.now)) }
{
    match item {
        PrintItem::Value(expression) => check_expression_names(alloc, tables, scope, expression),
        PrintItem::Fields(variable) => check_variable_name(alloc, scope, variable),
    }
}

fn check_items_names(
    alloc: Global,
    tables: &Tables,
    scope: &Scope,
    items: &[PrintItem],
) -> Result<(), Stop>
    ensures { Finds result (first_refusal (shown_names tables.now scope.now) (map shown_of items.now)) }
{
    for item in items {
        check_item_names(alloc, tables, scope, item)?;
    }
    Ok(())
}

/// Checks the names of an action, with those of the actions in it.
#[cycle(action_names)]
pub fn check_action_names(
    alloc: Global,
    tables: &Tables,
    scope: &Scope,
    action: &Action,
) -> Result<(), Stop>
    ensures { Finds result (act_names (act_of action.now) tables.now scope.now) }
{
    match action {
        Action::Store(range, assigns) => {
            check_range_names(alloc, tables, scope, range)?;
            let bound = extended(alloc, scope.as_slice(), range, None)?;
            check_assignments_names(alloc, tables, &bound, &range.variable, assigns.as_slice())
        }
        Action::For(selection, body) => {
            let inner = &selection.inner;
            let bound = checked_scope(alloc, tables, scope, inner.ranges.as_slice())?;
            check_with_names(alloc, tables, &bound, inner)?;
            check_clauses_names(alloc, tables, &bound, selection.clauses.as_slice())?;
            check_body_names(alloc, tables, &bound, body.as_slice())
        }
        Action::Print(items) => check_items_names(alloc, tables, scope, items.as_slice()),
        Action::Modify(variable, assigns) => {
            check_variable_name(alloc, scope, variable)?;
            check_assignments_names(alloc, tables, scope, variable, assigns.as_slice())
        }
        Action::Erase(variable) => check_variable_name(alloc, scope, variable),
    }
}

#[cycle(action_names)]
fn check_body_names(
    alloc: Global,
    tables: &Tables,
    scope: &Scope,
    body: &[Action],
) -> Result<(), Stop>
    ensures { Finds result (acts_names (acts_of (map act_of body.now)) tables.now scope.now) }
{
    for action in body {
        check_action_names(alloc, tables, scope, action)?;
    }
    Ok(())
}
