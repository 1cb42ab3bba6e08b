//! Actions. Only a FOR binds variables around an action.
ghost use Rattle.std.specs.Prelude.{◌≡◌, map, IfOk};
ghost use Rattle.std.specs.List.{All};
ghost use Rattle.rdo_ast.specs.Views.{shown_of, act_of, acts_of};
ghost use Rattle.rdb_meaning.specs.Checks.{first_refusal, shown_names, act_names, acts_names};
ghost use Rattle.rdb_checks.specs.Answers.{Finds};
ghost use Rattle.rdo_values.specs.Rows.{variables_of};
ghost use Rattle.rdo_bind.specs.Acting.{act_of as bound_act_of, acts_of as bound_acts_of, written_item, written_act, named_act, IsBoundItem, IsBoundAct, AreBoundActs};

use crate::assign::{BoundAssign, bind_assigns};
use crate::expression::bind_expression;
use crate::ranges::scope_behind;
use crate::reference::bind_range;
use crate::selection::bind_selection;
use crate::variable::{BoundVariable, bind_variable};
use rdb_checks::Stop;
use rdb_meaning::{Scope, Tables, extended};
use rdb_types::Items;
use rdo_ast::syntax::{Action, PrintItem};
use rdo_values::{BoundExpression, BoundRange, BoundSelection};
use std::alloc::Global;

#[derive(Drop)]
pub enum BoundPrintItem {
    Value(BoundExpression),
    /// `E.*`
    Fields(BoundVariable),
}

#[derive(Drop)]
pub enum BoundAction {
    Store(BoundRange, Items<BoundAssign>),
    For(BoundSelection, Items<BoundAction>),
    Print(Items<BoundPrintItem>),
    Modify(BoundVariable, Items<BoundAssign>),
    Erase(BoundVariable),
}

fn bind_item(
    alloc: Global,
    tables: &Tables,
    scope: &Scope,
    item: &PrintItem,
) -> Result<BoundPrintItem, Stop>
    ensures names { Finds result (shown_names tables.now scope.now (shown_of item.now)) }
    ensures written { IfOk result (λ bound. written_item bound ≡ shown_of item.now) }
    ensures bound { IfOk result (λ bound. IsBoundItem tables.now (variables_of scope.now) bound) }
{
    match item {
        PrintItem::Value(expression) => {
            let expression = bind_expression(alloc, tables, scope, expression)?;
            Ok(BoundPrintItem::Value(expression))
        }
        PrintItem::Fields(variable) => {
            let variable = bind_variable(alloc, tables, scope.as_slice(), variable)?;
            Ok(BoundPrintItem::Fields(variable))
        }
    }
}

fn bind_items(
    alloc: Global,
    tables: &Tables,
    scope: &Scope,
    items: &[PrintItem],
) -> Result<Items<BoundPrintItem>, Stop>
    ensures names { Finds result (first_refusal (shown_names tables.now scope.now) (map shown_of items.now)) }
    ensures written { IfOk result (λ bound. map written_item bound ≡ map shown_of items.now) }
    ensures bound { IfOk result (λ bound. All (IsBoundItem tables.now (variables_of scope.now)) bound) }
{
    let mut bound = Items::new(alloc);
    for item in items {
        bound.push(bind_item(alloc, tables, scope, item)?)?;
    }
    Ok(bound)
}

/// Binds an action with those in it to the row of the variables in the scope, or refuses the first name that stands for nothing or is taken.
#[cycle(actions)]
pub fn bind_action(
    alloc: Global,
    tables: &Tables,
    scope: &Scope,
    action: &Action,
) -> Result<BoundAction, Stop>
    ensures names { Finds result (act_names (act_of action.now) tables.now scope.now) }
    ensures written { IfOk result (λ bound. named_act (bound_act_of bound) ≡ act_of action.now) }
    ensures bound { IfOk result (λ bound. IsBoundAct (bound_act_of bound) tables.now (variables_of scope.now)) }
{
    match action {
        Action::Store(range, assigns) => {
            let stored = bind_range(alloc, tables, scope.as_slice(), range)?;
            let within = extended(alloc, scope.as_slice(), range, None)?;
            let assigns = assigns.as_slice();
            let assigns = bind_assigns(alloc, tables, &within, &range.variable, assigns)?;
            Ok(BoundAction::Store(stored, assigns))
        }
        Action::For(selection, body) => {
            let chosen = bind_selection(alloc, tables, scope, selection)?;
            let within = scope_behind(alloc, scope, selection.inner.ranges.as_slice())?;
            let body = bind_body(alloc, tables, &within, body.as_slice())?;
            Ok(BoundAction::For(chosen, body))
        }
        Action::Print(items) => {
            let items = bind_items(alloc, tables, scope, items.as_slice())?;
            Ok(BoundAction::Print(items))
        }
        Action::Modify(variable, assigns) => {
            let modified = bind_variable(alloc, tables, scope.as_slice(), variable)?;
            let assigns = bind_assigns(alloc, tables, scope, variable, assigns.as_slice())?;
            Ok(BoundAction::Modify(modified, assigns))
        }
        Action::Erase(variable) => {
            let erased = bind_variable(alloc, tables, scope.as_slice(), variable)?;
            Ok(BoundAction::Erase(erased))
        }
    }
}

/// Binds the actions of a FOR.
#[cycle(actions)]
fn bind_body(
    alloc: Global,
    tables: &Tables,
    scope: &Scope,
    actions: &[Action],
) -> Result<Items<BoundAction>, Stop>
    ensures names { Finds result (acts_names (acts_of (map act_of actions.now)) tables.now scope.now) }
    ensures written { IfOk result (λ bound. map written_act bound ≡ map act_of actions.now) }
    ensures bound { IfOk result (λ bound. AreBoundActs (bound_acts_of (map bound_act_of bound)) tables.now (variables_of scope.now)) }
{
    let mut bound = Items::new(alloc);
    for action in actions {
        bound.push(bind_action(alloc, tables, scope, action)?)?;
    }
    Ok(bound)
}
