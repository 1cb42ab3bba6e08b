ghost use Rattle.std.specs.Prelude.{◌≡◌, map};
ghost use Rattle.rdo_ast.specs.Views.{act_of, acts_of};
ghost use Rattle.rdb_meaning.specs.Checks.{is_retrieval, are_retrievals};
ghost use Rattle.rdb_meaning.specs.Meaning.{act_standing_refusal, act_refusal};
ghost use Rattle.rdb_checks.specs.Answers.{Finds};

use crate::action_names::check_action_names;
use crate::action_types::action_clashes;
use crate::reservations::{check_action_reserved, reservations_of};
use crate::stop::Stop;
use rdb_meaning::Tables;
use rdb_types::Items;
use rdo_ast::reply::{Reply, Standing};
use rdo_ast::syntax::Action;
use std::alloc::Global;

/// Whether an action is a PRINT, or a FOR with no STORE, MODIFY or ERASE in it.
#[cycle(retrieval)]
pub fn is_retrieval(action: &Action) -> bool
    ensures { result ≡ is_retrieval (act_of action.now) }
{
    match action {
        Action::Print(_) => true,
        Action::For(_, body) => are_retrievals(body.as_slice()),
        Action::Store(_, _) | Action::Modify(_, _) | Action::Erase(_) => false,
    }
}

#[cycle(retrieval)]
fn are_retrievals(actions: &[Action]) -> bool
    ensures { result ≡ are_retrievals (acts_of (map act_of actions.now)) }
{
    for action in actions {
        if !is_retrieval(action) {
            return false;
        }
    }
    true
}

/// Refuses a change outside a read-write transaction.
fn check_standing(standing: &Standing, action: &Action) -> Result<(), Stop>
    ensures { Finds result (act_standing_refusal (act_of action.now) standing.now) }
{
    if is_retrieval(action) {
        return Ok(());
    }
    match standing {
        Standing::Closed => Err(Stop::Refused(Reply::NoTransaction)),
        Standing::ReadOnly => Err(Stop::Refused(Reply::ReadOnly)),
        Standing::ReadWrite {
            wait: _,
            reserved: _,
        } => Ok(()),
    }
}

/// Refuses an action that needs another transaction, in which a name stands for nothing or is taken, for which a relation isn't reserved, or in which a text meets a number: the first of these in this order, and the first in the text among those of one kind.
pub fn check_action(
    alloc: Global,
    tables: &Tables,
    standing: &Standing,
    action: &Action,
) -> Result<(), Stop>
    ensures { Finds result (act_refusal (act_of action.now) standing.now tables.now) }
{
    check_standing(standing, action)?;
    let scope = Items::new(alloc);
    check_action_names(alloc, tables, &scope, action)?;
    check_action_reserved(alloc, reservations_of(standing), &scope, action)?;
    if action_clashes(alloc, tables, &scope, action)? {
        return Err(Stop::Refused(Reply::TypeClash));
    }
    Ok(())
}
