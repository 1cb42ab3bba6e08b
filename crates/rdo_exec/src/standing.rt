// What is refused before anything is read.
ghost use Rattle.std.specs.Prelude.{◌≡◌, IfOk};
ghost use Rattle.rdo_ast.specs.Views.{act_of, command_of, uttered_of};
ghost use Rattle.rdb_meaning.specs.Meaning.{standing_for, needs_closed, needs_open, needs_read_write, act_standing_refusal, standing_refusal};
ghost use Rattle.rdb_account.specs.Lawful.{first_refusal};

use rdb_checks::is_retrieval;
use rdb_types::{Copied, NoMemory};
use rdo_ast::reply::{Reply, Standing};
use rdo_ast::syntax::{Action, Item, Statement};
use std::alloc::Global;

fn needs_closed(standing: &Standing) -> Option<Reply>
    ensures { result ≡ needs_closed standing.now }
{
    match standing {
        Standing::Closed => None,
        Standing::ReadOnly | Standing::ReadWrite { .. } => Some(Reply::InTransaction),
    }
}

fn needs_open(standing: &Standing) -> Option<Reply>
    ensures { result ≡ needs_open standing.now }
{
    match standing {
        Standing::Closed => Some(Reply::NoTransaction),
        Standing::ReadOnly | Standing::ReadWrite { .. } => None,
    }
}

fn needs_read_write(standing: &Standing) -> Option<Reply>
    ensures { result ≡ needs_read_write standing.now }
{
    match standing {
        Standing::Closed => Some(Reply::NoTransaction),
        Standing::ReadOnly => Some(Reply::ReadOnly),
        Standing::ReadWrite { .. } => None,
    }
}

fn refused_action(standing: &Standing, action: &Action) -> Option<Reply>
    ensures { result ≡ act_standing_refusal (act_of action.now) standing.now }
{
    if is_retrieval(action) {
        return None;
    }
    needs_read_write(standing)
}

fn refused_by(standing: &Standing, statement: &Statement) -> Option<Reply>
    ensures { result ≡ standing_refusal (command_of statement.now) standing.now }
{
    match statement {
        Statement::Invoke(_) => None,
        Statement::StartReadOnly
        | Statement::StartReadWrite { .. }
        | Statement::Finish
        | Statement::BackUp(_) => needs_closed(standing),
        Statement::Commit | Statement::Rollback => needs_open(standing),
        Statement::Act(action) => refused_action(standing, action),
        Statement::DefineField(_, _)
        | Statement::DefineRelation(_, _)
        | Statement::DefineIndex(_)
        | Statement::DeleteRelation(_)
        | Statement::DeleteIndex(_) => needs_read_write(standing),
    }
}

/// The refusal by syntax or by the transaction that is open, which comes before any other.
pub(crate) fn first_refusal(standing: &Standing, item: &Item) -> Option<Reply>
    ensures { result ≡ first_refusal standing.now (uttered_of item.now) }
{
    match item {
        Item::SyntaxAt { line, column } => Some(Reply::Syntax {
            line: *line,
            column: *column,
        }),
        Item::Statement(statement) => refused_by(standing, statement),
    }
}

/// The standing that an action leaves, also where it is refused: a retrieval outside a transaction begins one.
pub(crate) fn standing_for(
    alloc: Global,
    standing: &Standing,
    action: &Action,
) -> Result<Standing, NoMemory>
    ensures { IfOk result (λ behind. behind ≡ standing_for (act_of action.now) standing.now) }
{
    match standing {
        Standing::Closed if is_retrieval(action) => Ok(Standing::ReadOnly),
        _ => standing.copied(alloc),
    }
}
