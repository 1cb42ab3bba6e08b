//! Runs actions on tables, in place.
ghost use Rattle.std.specs.Prelude.{◌≡◌, map};
ghost use Rattle.rdo_ast.specs.Views.{act_of, acts_of};
ghost use Rattle.rdb_meaning.specs.Evaluation.{bind_tuple};
ghost use Rattle.rdb_meaning.specs.Execution.{done, done_all, over};
ghost use Rattle.rdb_tables.specs.Stages.{Runs, stage};
ghost use Rattle.rdb_tables.specs.Undoing.{beginning};

use crate::lines::printed_line;
use crate::scopes::scope_with_tuple;
use crate::stop::Stop;
use crate::store::store;
use crate::update::{erase, modify};
use crate::work::{Given, Work};
use rdb_evaluation::selection;
use rdb_meaning::{Binding, Tables};
use rdb_types::Keys;
use rdo_ast::syntax::{Action, Range};

/// Does an action. `kept`: what undoes the changes still leads back to the start of the statement.
#[cycle(run)]
pub fn run_action(
    given: &Given,
    tables: &mut Tables,
    scope: &[Binding],
    action: &Action,
    work: &mut Work,
) -> Result<(), Stop>
    ensures runs { Runs result given.now.choices.now
        (done (act_of action.now) (beginning tables.old work.old.undo) scope.now) (stage tables.old work.old) (stage tables.new work.new) }
    ensures kept { beginning tables.new work.new.undo ≡ beginning tables.old work.old.undo }
{
    match action {
        Action::Print(items) => {
            let line = printed_line(given.alloc, tables, scope, items.as_slice())?;
            work.lines.push(line)?;
            Ok(())
        }
        Action::For(chosen, body) => {
            let tuples = selection(given.alloc, tables, scope, chosen)?;
            let ranges = chosen.inner.ranges.as_slice();
            run_over(
                given,
                tables,
                scope,
                ranges,
                tuples.as_slice(),
                body.as_slice(),
                work,
            )
        }
        Action::Store(range, assignments) => {
            store(given, tables, scope, range, assignments.as_slice(), work)
        }
        Action::Modify(variable, assignments) => {
            modify(given, tables, scope, variable, assignments.as_slice(), work)
        }
        Action::Erase(variable) => erase(given, tables, scope, variable, work),
    }
}

// The body for each tuple in turn.
#[cycle(run)]
fn run_over(
    given: &Given,
    tables: &mut Tables,
    scope: &[Binding],
    ranges: &[Range],
    tuples: &[Keys],
    body: &[Action],
    work: &mut Work,
) -> Result<(), Stop>
    ensures runs { Runs result given.now.choices.now
        (over tuples.now (λ ks. done_all (acts_of (map act_of body.now)) (beginning tables.old work.old.undo) (bind_tuple ranges.now ks scope.now)))
        (stage tables.old work.old) (stage tables.new work.new) }
    ensures kept { beginning tables.new work.new.undo ≡ beginning tables.old work.old.undo }
{
    for tuple in tuples {
        let bound = scope_with_tuple(given.alloc, scope, ranges, tuple.as_slice())?;
        run_body(given, tables, bound.as_slice(), body, work)?;
    }
    Ok(())
}

#[cycle(run)]
fn run_body(
    given: &Given,
    tables: &mut Tables,
    scope: &[Binding],
    body: &[Action],
    work: &mut Work,
) -> Result<(), Stop>
    ensures runs { Runs result given.now.choices.now
        (done_all (acts_of (map act_of body.now)) (beginning tables.old work.old.undo) scope.now)
        (stage tables.old work.old) (stage tables.new work.new) }
    ensures kept { beginning tables.new work.new.undo ≡ beginning tables.old work.old.undo }
{
    for action in body {
        run_action(given, tables, scope, action, work)?;
    }
    Ok(())
}
