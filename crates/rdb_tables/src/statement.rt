//! Does an item of a script.
ghost use Rattle.std.specs.Prelude.{◌≡◌, [], false, Some, IfOk, OnOk, OnErr};
ghost use Rattle.rdo_ast.specs.declared.reply.Standing.{Standing};
ghost use Rattle.rdo_ast.specs.Views.{act_of, uttered_of};
ghost use Rattle.rdb_meaning.specs.declared.tables.Tables.{Tables};
ghost use Rattle.rdb_meaning.specs.Meaning.{Does, act_meaning, meaning as meaning_of, standing_for};
ghost use Rattle.rdb_meaning.specs.Usual.{is_refusal_of_means};
ghost use Rattle.rdb_tables.specs.Answers.{Answers, TakesFirst, reply_to};
ghost use Rattle.rdb_tables.specs.Undoing.{beginning};

use crate::definition::definition;
use crate::run::run_action;
use crate::stop::Stop;
use crate::told::Told;
use crate::transaction::transaction;
use crate::undo::roll_back;
use crate::work::{Given, Work};
use rdb_checks::{Stop as CheckStop, check_action, is_retrieval};
use rdb_meaning::Tables;
use rdb_types::{Copied, Dbkey, NoMemory, Word};
use rdo_ast::reply::{Reply, Standing};
use rdo_ast::syntax::{Action, Item, Statement};
use std::alloc::Global;

// The standing that an action leaves: a retrieval outside a transaction begins one.
fn standing_after(alloc: Global, standing: &Standing, action: &Action) -> Result<Standing, NoMemory>
    ensures { IfOk result (λ after. after ≡ standing_for (act_of action.now) standing.now) }
{
    match standing {
        Standing::Closed if is_retrieval(action) => Ok(Standing::ReadOnly),
        _ => standing.copied(alloc),
    }
}

// The answer to an action, by how it ended. Where it wasn't done, the tables are brought back.
fn answer(
    tables: &mut Tables,
    alloc: Global,
    end: Result<(), Stop>,
    work: Work,
    standing: Standing,
) -> Result<Told, NoMemory>
    ensures reply { IfOk result (λ d. reply_to end work.lines ≡ Some d.reply) }
    ensures standing { IfOk result (λ d. d.standing ≡ standing) }
    ensures taken { IfOk result (λ d. d.taken ≡ work.taken) }
    ensures memory { OnErr result (end ≡ Err Stop.Memory) }
    ensures done { OnOk end (tables.new ≡ tables.old) }
    ensures undone { OnErr end (tables.new ≡ beginning tables.old work.undo) }
{
    let Work { lines, taken, undo } = work;
    match &end {
        Ok(()) => drop(undo),
        Err(_) => roll_back(tables, alloc, undo),
    }
    let reply = match end {
        Ok(()) => Reply::Done(lines),
        Err(Stop::Overflow) => Reply::Overflow,
        Err(Stop::TooLong) => Reply::TooLong,
        Err(Stop::Duplicate(index)) => Reply::Duplicate(index),
        Err(Stop::Memory) => return Err(NoMemory {}),
    };
    Ok(Told {
        reply,
        standing,
        taken,
    })
}

fn act(
    tables: &mut Tables,
    alloc: Global,
    standing: &Standing,
    action: &Action,
    choices: &[Dbkey],
) -> Result<Told, NoMemory>
    ensures meaning { Answers result (λ ks. act_meaning (act_of action.now) standing.now ks tables.old) choices.now tables.new }
    ensures usual { IfOk result (λ d. is_refusal_of_means d.reply ≡ false) }
    ensures refused { OnErr result (tables.new ≡ tables.old) }
{
    let after = standing_after(alloc, standing, action)?;
    match check_action(alloc, tables, standing, action) {
        Ok(()) => {}
        Err(CheckStop::Refused(reply)) => return Ok(Told::plain(alloc, reply, after)),
        Err(CheckStop::Memory) => return Err(NoMemory {}),
    }
    let mut work = Work::new(alloc);
    let end = run_action(&Given { alloc, choices }, tables, &[], action, &mut work);
    answer(tables, alloc, end, work, after)
}

/// Does an item on the tables, in the given standing. Each stored row takes the next of `choices`; where none is left, or it may not be given, another. After want of memory the tables are as before.
pub fn does(
    tables: &mut Tables,
    alloc: Global,
    word: &Word,
    standing: &Standing,
    item: &Item,
    choices: &[Dbkey],
) -> Result<Told, NoMemory>
    ensures meaning { IfOk result
        (λ d. Does word.now standing.now (uttered_of item.now) d.taken tables.old d.reply tables.new d.standing) }
    ensures chosen { IfOk result
        (λ d. TakesFirst (meaning_of word.now standing.now (uttered_of item.now) choices.now tables.old) choices.now d.taken) }
    ensures usual { IfOk result (λ d. is_refusal_of_means d.reply ≡ false) }
    ensures refused { OnErr result (tables.new ≡ tables.old) }
{
    match item {
        Item::SyntaxAt { line, column } => {
            let reply = Reply::Syntax {
                line: *line,
                column: *column,
            };
            Ok(Told::plain(alloc, reply, standing.copied(alloc)?))
        }
        Item::Statement(Statement::Act(action)) => act(tables, alloc, standing, action, choices),
        Item::Statement(
            statement @ (Statement::DefineField(_, _)
            | Statement::DefineRelation(_, _)
            | Statement::DefineIndex(_)
            | Statement::DeleteRelation(_)
            | Statement::DeleteIndex(_)),
        ) => definition(tables, alloc, word, standing, statement),
        Item::Statement(
            statement @ (Statement::Invoke(_)
            | Statement::StartReadOnly
            | Statement::StartReadWrite { .. }
            | Statement::Commit
            | Statement::Rollback
            | Statement::Finish
            | Statement::BackUp(_)),
        ) => transaction(alloc, tables, word, standing, statement),
    }
}
