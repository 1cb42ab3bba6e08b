// What an item begins, what it ends, and its answer where no memory is found.
ghost use Rattle.std.specs.Prelude.{◌≡◌, ◌||◌, [], not, IfOk, IfSome};
ghost use Rattle.rdo_ast.specs.Views.{uttered_of};
ghost use Rattle.rdb_account.specs.Places.{backup_of, begins, is_done as is_done_reply, is_writer, leaves_none as leaves_none_open};
ghost use Rattle.line_store.specs.Seats.{IsBackupNumber};
ghost use Rattle.rdb_account.specs.Lawful.{never_sleeps};
ghost use Rattle.stage_steps.specs.Turns.{EndsAs};

use crate::happening::Answer;
use rdb_checks::is_retrieval;
use rdb_types::{Copied, Items, NoMemory};
use rdo_ast::reply::{Reply, Standing};
use rdo_ast::syntax::{Item, Statement};
use std::alloc::Global;

/// How an item ends a transaction.
#[derive(Clone, Copy)]
pub enum End {
    Commit,
    Rollback,
    /// It ends none.
    Nothing,
}

pub fn end_of(item: &Item) -> End
    ensures { EndsAs result (uttered_of item.now) }
{
    match item {
        Item::Statement(Statement::Commit) => End::Commit,
        Item::Statement(Statement::Rollback) => End::Rollback,
        _ => End::Nothing,
    }
}

/// The kind of the transaction that an item begins where none is open.
pub fn kind_begun(alloc: Global, item: &Item) -> Result<Option<Standing>, NoMemory>
    ensures { IfOk result (λ kind. kind ≡ begins (uttered_of item.now)) }
{
    match item {
        Item::Statement(Statement::StartReadOnly) => Ok(Some(Standing::ReadOnly)),
        Item::Statement(Statement::BackUp(_)) => Ok(Some(Standing::ReadOnly)),
        Item::Statement(Statement::StartReadWrite { wait, reserved }) => {
            Ok(Some(Standing::ReadWrite {
                wait: *wait,
                reserved: reserved.copied(alloc)?,
            }))
        }
        Item::Statement(Statement::Act(action)) if is_retrieval(action) => {
            Ok(Some(Standing::ReadOnly))
        }
        _ => Ok(None),
    }
}

/// The number of the online backup that an item asks for.
pub fn backed_up(item: &Item) -> Option<u32>
    ensures asked { result ≡ backup_of (uttered_of item.now) }
    ensures numbered { IfSome result IsBackupNumber }
{
    match item {
        Item::Statement(Statement::BackUp(number)) => Some(number.get() as u32),
        _ => None,
    }
}

/// Whether an item is a START_TRANSACTION or an online backup, whose refusal leaves no transaction.
pub fn leaves_none(item: &Item) -> bool
    ensures { result ≡ leaves_none_open (uttered_of item.now) }
{
    match item {
        Item::Statement(Statement::StartReadOnly) => true,
        Item::Statement(Statement::StartReadWrite { .. }) => true,
        Item::Statement(Statement::BackUp(_)) => true,
        _ => false,
    }
}

pub fn is_done(reply: &Reply) -> bool
    ensures { result ≡ is_done_reply reply.now }
{
    matches!(reply, Reply::Done(_))
}

pub fn writes(kind: &Standing) -> bool
    ensures { result ≡ is_writer kind.now }
{
    matches!(kind, Standing::ReadWrite { .. })
}

/// Whether a transaction of this kind is refused where it would wait.
pub fn is_nowait(kind: &Standing) -> bool
    ensures { result ≡ never_sleeps kind.now }
{
    match kind {
        Standing::ReadWrite { wait, .. } => !*wait,
        _ => false,
    }
}

/// An item refused without a row.
pub fn refused(alloc: Global, item: Item, reply: Reply) -> Answer
    ensures { result ≡ record { item = item; keys = []; reply = reply } }
{
    Answer {
        item,
        keys: Items::new(alloc),
        reply,
    }
}

/// Whether a statement answered so is said in its transaction: one that isn't done, said as the first, ends it.
pub fn stands(spoken: bool, reply: &Reply) -> bool
    ensures { result ≡ (spoken || is_done_reply reply.now) }
{
    spoken || is_done(reply)
}

/// Whether a transaction goes on where no memory is found for a statement of it.
pub fn goes_on(spoken: bool, item: &Item) -> bool
    ensures { result ≡ (spoken || not (leaves_none_open (uttered_of item.now))) }
{
    spoken || !leaves_none(item)
}
