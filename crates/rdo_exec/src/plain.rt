// Statements about the transaction and the database, which read no lines.
ghost use Rattle.std.specs.Prelude.{◌≡◌, None, IfOk};
ghost use Rattle.std.specs.Str.{str_eq_ignore_ascii_case};
ghost use Rattle.rdo_ast.specs.Tree.{said};
ghost use Rattle.rdo_ast.specs.Views.{command_of};
ghost use Rattle.rdb_meaning.specs.Meaning.{is_word, standing_refusal};
ghost use Rattle.rdo_exec.specs.Answers.{reply_or_done, IsAnswered};
ghost use Rattle.rdo_exec.specs.Ways.{IsPlain};

use crate::records::{answered, answered_by, done};
use rdb_types::{Chars, Copied, NoMemory, Word};
use rdo_ast::reply::{Reply, Standing};
use rdo_ast::syntax::{Reservations, Statement};
use session_jobs::Found;
use std::alloc::Global;

fn same_in_any_case(a: &[u8], b: &[u8]) -> bool
    ensures { result ≡ str_eq_ignore_ascii_case a.now b.now }
{
    a.eq_ignore_ascii_case(b)
}

// The text is to be the word of the command line.
fn invoked(alloc: Global, word: &Word, text: &Chars) -> Result<Reply, NoMemory>
    ensures { IfOk result (λ reply. reply ≡ reply_or_done (is_word word.now text.now)) }
{
    if same_in_any_case(word.as_slice(), text.as_slice()) {
        return Ok(done(alloc));
    }
    Ok(Reply::NoSuch(text.copied(alloc)?))
}

/// The standing behind START_TRANSACTION READ_WRITE.
pub(crate) fn read_write(
    alloc: Global,
    wait: bool,
    reserved: &Reservations,
) -> Result<Standing, NoMemory>
    ensures { IfOk result (λ behind. behind ≡ Standing.ReadWrite wait reserved.now) }
{
    let reserved = reserved.copied(alloc)?;
    Ok(Standing::ReadWrite { wait, reserved })
}

/// INVOKE, START_TRANSACTION without reservations, COMMIT, ROLLBACK, FINISH and an online backup, which the transaction that is open doesn't refuse.
pub(crate) fn plain(alloc: Global, word: &Word, standing: &Standing, statement: &Statement) -> Found
    requires plain { IsPlain (command_of statement.now) }
    requires standing { standing_refusal (command_of statement.now) standing.now ≡ None }
    ensures { IsAnswered word.now standing.now (said (command_of statement.now)) result }
{
    match statement {
        Statement::Invoke(text) => {
            answered_by(alloc, invoked(alloc, word, text), standing.copied(alloc))
        }
        Statement::StartReadOnly => answered(alloc, done(alloc), Standing::ReadOnly),
        Statement::StartReadWrite { wait, reserved } => {
            answered_by(alloc, Ok(done(alloc)), read_write(alloc, *wait, reserved))
        }
        Statement::Commit | Statement::Rollback | Statement::Finish | Statement::BackUp(_) =>
            answered(alloc, done(alloc), Standing::Closed),
        _ => unreachable!(),
    }
}
