ghost use Rattle.std.specs.Prelude.{◌≡◌, map, IfOk};
ghost use Rattle.std.specs.List.{list_any};
ghost use Rattle.rdo_ast.specs.Views.{assignment_of, shown_of, act_of, acts_of};
ghost use Rattle.rdb_meaning.specs.Checks.{assignment_clashes, shown_clashes, act_clashes, acts_clash};

use crate::scopes::scope_with_ranges;
use crate::types::{expression_clashes, is_text_field, is_textual, with_clashes};
use rdb_meaning::{Scope, Tables, extended};
use rdb_types::NoMemory;
use rdo_ast::syntax::{Action, Assign, PrintItem};
use std::alloc::Global;

fn assignment_clashes(
    alloc: Global,
    tables: &Tables,
    scope: &Scope,
    assign: &Assign,
) -> Result<bool, NoMemory>
    ensures { IfOk result
        (λ clashing. clashing ≡ assignment_clashes tables.now scope.now (assignment_of assign.now)) }
{
    let is_text = is_text_field(tables, scope, &assign.left);
    Ok(
        expression_clashes(alloc, tables, scope, &assign.right)?
            || is_text != is_textual(alloc, tables, scope, &assign.right)?,
    )
}

fn assignments_clash(
    alloc: Global,
    tables: &Tables,
    scope: &Scope,
    assigns: &[Assign],
) -> Result<bool, NoMemory>
    ensures { IfOk result (λ clashing. clashing
        ≡ list_any (assignment_clashes tables.now scope.now) (map assignment_of assigns.now)) }
{
    for assign in assigns {
        if assignment_clashes(alloc, tables, scope, assign)? {
            return Ok(true);
        }
    }
    Ok(false)
}

fn item_clashes(
    alloc: Global,
    tables: &Tables,
    scope: &Scope,
    item: &PrintItem,
) -> Result<bool, NoMemory>
    ensures { IfOk result
        (λ clashing. clashing ≡ shown_clashes tables.now scope.now (shown_of item.now)) }
{
    match item {
        PrintItem::Value(expression) => expression_clashes(alloc, tables, scope, expression),
        PrintItem::Fields(_) => Ok(false),
    }
}

fn items_clash(
    alloc: Global,
    tables: &Tables,
    scope: &Scope,
    items: &[PrintItem],
) -> Result<bool, NoMemory>
    ensures { IfOk result (λ clashing. clashing
        ≡ list_any (shown_clashes tables.now scope.now) (map shown_of items.now)) }
{
    for item in items {
        if item_clashes(alloc, tables, scope, item)? {
            return Ok(true);
        }
    }
    Ok(false)
}

/// Whether a text stands in the action where a number is wanted, or a number where a text is.
#[cycle(action_types)]
pub fn action_clashes(
    alloc: Global,
    tables: &Tables,
    scope: &Scope,
    action: &Action,
) -> Result<bool, NoMemory>
    ensures { IfOk result
        (λ clashing. clashing ≡ act_clashes (act_of action.now) tables.now scope.now) }
{
    match action {
        Action::Store(range, assigns) => {
            let bound = extended(alloc, scope.as_slice(), range, None)?;
            assignments_clash(alloc, tables, &bound, assigns.as_slice())
        }
        Action::For(selection, body) => {
            let inner = &selection.inner;
            let bound = scope_with_ranges(alloc, scope, inner.ranges.as_slice())?;
            Ok(
                with_clashes(alloc, tables, &bound, inner)?
                    || body_clashes(alloc, tables, &bound, body.as_slice())?,
            )
        }
        Action::Print(items) => items_clash(alloc, tables, scope, items.as_slice()),
        Action::Modify(_, assigns) => assignments_clash(alloc, tables, scope, assigns.as_slice()),
        Action::Erase(_) => Ok(false),
    }
}

#[cycle(action_types)]
fn body_clashes(
    alloc: Global,
    tables: &Tables,
    scope: &Scope,
    body: &[Action],
) -> Result<bool, NoMemory>
    ensures { IfOk result
        (λ clashing. clashing ≡ acts_clash (acts_of (map act_of body.now)) tables.now scope.now) }
{
    for action in body {
        if action_clashes(alloc, tables, scope, action)? {
            return Ok(true);
        }
    }
    Ok(false)
}
