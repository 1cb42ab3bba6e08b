//! Statements about the transaction and the database, which change no table.
ghost use Rattle.std.specs.Prelude.{◌≡◌, [], true, false, IfOk};
ghost use Rattle.std.specs.Str.{str_eq_ignore_ascii_case};
ghost use Rattle.rdo_ast.specs.Views.{command_of};
ghost use Rattle.rdb_meaning.specs.Meaning.{command_meaning, is_word, reserved_names};
ghost use Rattle.rdb_meaning.specs.Usual.{is_refusal_of_means};
ghost use Rattle.rdb_tables.specs.Answers.{Says, reply_or_done, closed_or};
ghost use Rattle.rdb_tables.specs.Redefining.{leaves_tables};

use crate::told::Told;
use rdb_checks::{Stop as CheckStop, check_reserved_names};
use rdb_meaning::Tables;
use rdb_types::{Chars, Copied, NoMemory, Word};
use rdo_ast::reply::{Reply, Standing};
use rdo_ast::syntax::{Reservations, Statement};
use std::alloc::Global;

/// Does a statement that changes no table: INVOKE, START_TRANSACTION, COMMIT, ROLLBACK, FINISH and an online backup.
#[tactic(auto, using(crate::proofs::Commands::invoke_means, crate::proofs::Commands::start_means))]
pub fn transaction(
    alloc: Global,
    tables: &Tables,
    word: &Word,
    standing: &Standing,
    statement: &Statement,
) -> Result<Told, NoMemory>
    requires { leaves_tables (command_of statement.now) ≡ true }
    ensures meaning { Says result
        (λ ks. command_meaning word.now (command_of statement.now) standing.now ks tables.now) tables.now }
    ensures usual { IfOk result (λ d. is_refusal_of_means d.reply ≡ false) }
{
    match statement {
        Statement::Invoke(text) => invoke(alloc, word, standing, text),
        Statement::StartReadOnly => match standing {
            Standing::Closed => Ok(Told::done(alloc, Standing::ReadOnly)),
            _ => in_transaction(alloc, standing),
        },
        Statement::StartReadWrite { wait, reserved } => match standing {
            Standing::Closed => start_read_write(alloc, tables, *wait, reserved),
            _ => in_transaction(alloc, standing),
        },
        Statement::Commit | Statement::Rollback => match standing {
            Standing::Closed => Ok(Told::plain(alloc, Reply::NoTransaction, Standing::Closed)),
            _ => Ok(Told::done(alloc, Standing::Closed)),
        },
        Statement::Finish | Statement::BackUp(_) => match standing {
            Standing::Closed => Ok(Told::done(alloc, Standing::Closed)),
            _ => in_transaction(alloc, standing),
        },
        _ => unreachable!(),
    }
}

fn in_transaction(alloc: Global, standing: &Standing) -> Result<Told, NoMemory>
    ensures { IfOk result
        (λ d. d ≡ record { reply = Reply.InTransaction; standing = standing.now; taken = [] }) }
{
    let standing = standing.copied(alloc)?;
    Ok(Told::plain(alloc, Reply::InTransaction, standing))
}

fn same_in_any_case(a: &[u8], b: &[u8]) -> bool
    ensures { result ≡ str_eq_ignore_ascii_case a.now b.now }
{
    a.eq_ignore_ascii_case(b)
}

// The text is to be the word of the command line.
fn invoke(alloc: Global, word: &Word, standing: &Standing, text: &Chars) -> Result<Told, NoMemory>
    ensures { IfOk result
        (λ d. d ≡ record { reply = reply_or_done (is_word word.now text.now); standing = standing.now; taken = [] }) }
{
    let standing = standing.copied(alloc)?;
    if same_in_any_case(word.as_slice(), text.as_slice()) {
        return Ok(Told::done(alloc, standing));
    }
    let text = text.copied(alloc)?;
    Ok(Told::plain(alloc, Reply::NoSuch(text), standing))
}

// Outside a transaction.
#[tactic(auto, using(crate::proofs::UsualReplies::usual_names))]
fn start_read_write(
    alloc: Global,
    tables: &Tables,
    wait: bool,
    reserved: &Reservations,
) -> Result<Told, NoMemory>
    ensures told { IfOk result (λ d. d ≡ record {
      reply = reply_or_done (reserved_names [] reserved.now tables.now);
      standing = closed_or (reserved_names [] reserved.now tables.now) (Standing.ReadWrite wait reserved.now);
      taken = [];
    }) }
    ensures usual { IfOk result (λ d. is_refusal_of_means d.reply ≡ false) }
{
    match check_reserved_names(alloc, tables, reserved.as_slice()) {
        Ok(()) => {
            let reserved = reserved.copied(alloc)?;
            Ok(Told::done(alloc, Standing::ReadWrite { wait, reserved }))
        }
        Err(CheckStop::Refused(reply)) => Ok(Told::plain(alloc, reply, Standing::Closed)),
        Err(CheckStop::Memory) => Err(NoMemory {}),
    }
}
