//! Statements. An action is checked before it is bound, so that a name that stands for nothing, a relation that isn't reserved and a text that meets a number are refused in their order.
ghost use Rattle.std.specs.Prelude.{◌≡◌, [], IfOk};
ghost use Rattle.rdo_ast.specs.Views.{act_of, command_of};
ghost use Rattle.rdb_meaning.specs.Meaning.{act_refusal};
ghost use Rattle.rdb_checks.specs.Answers.{Finds};
ghost use Rattle.rdo_bind.specs.Acting.{act_of as bound_act_of, named_act, IsBoundAct};
ghost use Rattle.rdo_bind.specs.Statements.{command_refusal, written_command, IsBoundStatement};

use crate::action::{BoundAction, bind_action};
use rdb_checks::{Stop, check_action};
use rdb_meaning::Tables;
use rdb_types::{Chars, FieldType, Items};
use rdo_ast::backup::BackupNumber;
use rdo_ast::reply::Standing;
use rdo_ast::syntax::{Action, FieldDefinition, IndexDefinition, Reservations, Statement};
use std::alloc::Global;

/// A statement whose action is bound. The other statements have their names as they were written.
#[derive(Drop)]
pub enum BoundStatement {
    Invoke(Chars),
    StartReadOnly,
    StartReadWrite {
        /// Whether it waits for locks.
        wait: bool,
        reserved: Reservations,
    },
    Commit,
    Rollback,
    Finish,
    BackUp(BackupNumber),
    Act(BoundAction),
    DefineField(Chars, FieldType),
    DefineRelation(Chars, Items<FieldDefinition>),
    DefineIndex(IndexDefinition),
    DeleteRelation(Chars),
    DeleteIndex(Chars),
}

/// Checks an action that stands alone, and binds it.
fn bind_checked(
    alloc: Global,
    tables: &Tables,
    standing: &Standing,
    action: &Action,
) -> Result<BoundAction, Stop>
    ensures refusal { Finds result (act_refusal (act_of action.now) standing.now tables.now) }
    ensures written { IfOk result (λ bound. named_act (bound_act_of bound) ≡ act_of action.now) }
    ensures bound { IfOk result (λ bound. IsBoundAct (bound_act_of bound) tables.now []) }
{
    check_action(alloc, tables, standing, action)?;
    let scope = Items::new(alloc);
    bind_action(alloc, tables, &scope, action)
}

/// Binds a statement, or refuses its action: where it needs another transaction, where a name stands for nothing or is taken, where a relation isn't reserved, or where a text meets a number, the first of these in this order. The other statements are refused when they are done.
pub fn bind(
    alloc: Global,
    tables: &Tables,
    standing: &Standing,
    statement: Statement,
) -> Result<BoundStatement, Stop>
    ensures refusal { Finds result (command_refusal (command_of statement) standing.now tables.now) }
    ensures written { IfOk result (λ bound. written_command bound ≡ command_of statement) }
    ensures bound { IfOk result (λ bound. IsBoundStatement bound tables.now) }
{
    match statement {
        Statement::Invoke(path) => Ok(BoundStatement::Invoke(path)),
        Statement::StartReadOnly => Ok(BoundStatement::StartReadOnly),
        Statement::StartReadWrite { wait, reserved } => {
            Ok(BoundStatement::StartReadWrite { wait, reserved })
        }
        Statement::Commit => Ok(BoundStatement::Commit),
        Statement::Rollback => Ok(BoundStatement::Rollback),
        Statement::Finish => Ok(BoundStatement::Finish),
        Statement::BackUp(number) => Ok(BoundStatement::BackUp(number)),
        Statement::Act(action) => {
            let action = bind_checked(alloc, tables, standing, &action)?;
            Ok(BoundStatement::Act(action))
        }
        Statement::DefineField(name, kind) => Ok(BoundStatement::DefineField(name, kind)),
        Statement::DefineRelation(name, fields) => {
            Ok(BoundStatement::DefineRelation(name, fields))
        }
        Statement::DefineIndex(definition) => Ok(BoundStatement::DefineIndex(definition)),
        Statement::DeleteRelation(name) => Ok(BoundStatement::DeleteRelation(name)),
        Statement::DeleteIndex(name) => Ok(BoundStatement::DeleteIndex(name)),
    }
}
