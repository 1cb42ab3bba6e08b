// How a statement is worked that the transaction that is open doesn't refuse.
ghost use Rattle.std.specs.Prelude.{◌≡◌, true};
ghost use Rattle.rdo_ast.specs.Tree.{perform};
ghost use Rattle.rdo_ast.specs.Views.{act_of, command_of, uttered_of};
ghost use Rattle.rdo_exec.specs.Ways.{IsWay, IsViewed};

use crate::naming::names_relation;
use crate::plainness::is_bare;
use rdo_ast::syntax::{Action, Item, Statement};

#[derive(Clone, Copy)]
pub(crate) enum Way {
    /// It reads no lines.
    Plain,
    /// Its reservations name relations of the catalog.
    Reserving,
    /// An action that means the same over all tables.
    Bare,
    Acting,
    Defining,
    /// A FOR or a statistic without a range, which no script has.
    Strange,
}

fn action_way(action: &Action) -> Way
    ensures { IsWay result (perform (act_of action.now)) }
{
    if is_bare(action) {
        Way::Bare
    } else if names_relation(action) {
        Way::Acting
    } else {
        Way::Strange
    }
}

pub(crate) fn way_of(statement: &Statement) -> Way
    ensures { IsWay result (command_of statement.now) }
{
    match statement {
        Statement::StartReadWrite { wait: _, reserved } => {
            if reserved.is_empty() {
                Way::Plain
            } else {
                Way::Reserving
            }
        }
        Statement::Act(action) => action_way(action),
        Statement::DefineField(_, _)
        | Statement::DefineRelation(_, _)
        | Statement::DefineIndex(_)
        | Statement::DeleteRelation(_)
        | Statement::DeleteIndex(_) => Way::Defining,
        Statement::Invoke(_)
        | Statement::StartReadOnly
        | Statement::Commit
        | Statement::Rollback
        | Statement::Finish
        | Statement::BackUp(_) => Way::Plain,
    }
}

#[tactic(auto, using(crate::proofs::Viewing::naming_views, crate::proofs::Viewing::defining_views))]
/// Whether an item that nothing refuses before is worked over a view, by the catalog that is kept or else read.
pub fn is_viewed(item: &Item) -> bool
    ensures { result ≡ true → IsViewed (uttered_of item.now) }
{
    match item {
        Item::Statement(statement) => match way_of(statement) {
            Way::Acting | Way::Defining => true,
            Way::Plain | Way::Reserving | Way::Bare | Way::Strange => false,
        },
        Item::SyntaxAt { .. } => false,
    }
}
