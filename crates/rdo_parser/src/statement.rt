//! Statements.

ghost use Rattle.std.specs.Prelude.{suc, false};
ghost use Rattle.rdo_tokens.specs.Input.{Reads};
ghost use Rattle.rdo_parser.specs.Statements as spec;

use crate::definition::define;
use crate::transaction::start_transaction;
use rdo_ast::backup::BackupNumber;
use rdo_ast::syntax::Statement;
use rdo_grammar::action::action;
use rdo_tokens::token::Kind;
use rdo_tokens::tokens::{Stop, Tokens};
use std::alloc::Global;

/// How many levels may be open.
const MAX_NESTING: usize = 16;

/// The greatest number of a backup.
const MAX_BACKUP: u64 = 9;

/// What follows DELETE.
#[tactic(auto, unfolding(crate::specs::Statements::delete))]
fn delete(alloc: Global, tokens: &mut Tokens<'_>) -> Result<Statement, Stop>
    ensures { Reads (spec.delete tokens.old) result tokens.new }
{
    match tokens.peek() {
        Kind::Relation => {
            tokens.take();
            Ok(Statement::DeleteRelation(tokens.name(alloc)?))
        }
        Kind::Index => {
            tokens.take();
            Ok(Statement::DeleteIndex(tokens.name(alloc)?))
        }
        _ => Err(Stop::Offending),
    }
}

/// What follows INVOKE.
#[tactic(auto, unfolding(crate::specs::Statements::invoke))]
fn invoke(alloc: Global, tokens: &mut Tokens<'_>) -> Result<Statement, Stop>
    ensures { Reads (spec.invoke tokens.old) result tokens.new }
{
    tokens.expect(Kind::Database)?;
    tokens.expect(Kind::Filename)?;
    Ok(Statement::Invoke(tokens.text(alloc)?))
}

/// `RMU "/" BACKUP "/" ONLINE number`
#[tactic(auto, unfolding(crate::specs::Statements::back_up))]
fn back_up(tokens: &mut Tokens<'_>) -> Result<Statement, Stop>
    ensures { Reads (spec.back_up tokens.old) result tokens.new }
{
    tokens.expect(Kind::Rmu)?;
    tokens.expect(Kind::Slash)?;
    tokens.expect(Kind::Backup)?;
    tokens.expect(Kind::Slash)?;
    tokens.expect(Kind::Online)?;
    let number = tokens.whole_number(1, MAX_BACKUP)? as u8;
    Ok(Statement::BackUp(BackupNumber::new(number)))
}

/// A statement.
#[tactic(auto, unfolding(crate::specs::Statements::statement))]
fn statement(alloc: Global, tokens: &mut Tokens<'_>) -> Result<Statement, Stop>
    ensures { Reads (spec.statement tokens.old) result tokens.new }
{
    match tokens.peek() {
        Kind::Invoke => {
            tokens.take();
            invoke(alloc, tokens)
        }
        Kind::StartTransaction => {
            tokens.take();
            start_transaction(alloc, tokens)
        }
        Kind::Commit => {
            tokens.take();
            Ok(Statement::Commit)
        }
        Kind::Rollback => {
            tokens.take();
            Ok(Statement::Rollback)
        }
        Kind::Finish => {
            tokens.take();
            Ok(Statement::Finish)
        }
        Kind::Dollar => {
            tokens.take();
            back_up(tokens)
        }
        Kind::Define => {
            tokens.take();
            define(alloc, tokens)
        }
        Kind::Delete => {
            tokens.take();
            delete(alloc, tokens)
        }
        _ => Ok(Statement::Act(action(alloc, tokens, MAX_NESTING + 1, false)?)),
    }
}

/// A statement, and the point that may follow it.
#[tactic(auto, unfolding(crate::specs::Statements::pointed, rdo_grammar::specs::Grammar::point))]
pub fn pointed(alloc: Global, tokens: &mut Tokens<'_>) -> Result<Statement, Stop>
    ensures { Reads (spec.pointed tokens.old) result tokens.new }
{
    let found = statement(alloc, tokens)?;
    tokens.eat(Kind::Dot);
    Ok(found)
}
