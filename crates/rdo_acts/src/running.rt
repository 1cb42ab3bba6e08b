// Actions, one after another.
ghost use Rattle.std.specs.Prelude.{◌≡◌, ◌++◌, false, map};
ghost use Rattle.rdb_meaning.specs.Contents.{Row as Values};
ghost use Rattle.rdb_meaning.specs.Evaluation.{bind_tuple, bind_sources};
ghost use Rattle.rdb_meaning.specs.Execution.{done, done_all, over};
ghost use Rattle.rdo_values.specs.Places.{AreRanges};
ghost use Rattle.rdo_values.specs.Rows.{variables_of};
ghost use Rattle.rdo_bind.specs.Acting.{act_of, acts_of, named_act, named_acts, IsBoundAct, AreBoundActs};
ghost use Rattle.rdo_select.specs.Crossed.{ranges_of};
ghost use Rattle.rdo_acts.specs.Scopes.{scope_of, AreRowsOf, may_write, may_write_any};
ghost use Rattle.rdo_acts.specs.Ends.{GoTogether, Runs, RunsOver};
ghost use Rattle.rdo_acts.specs.Areas.{action_uses, body_uses, RunsFor, RunsOverFor};
ghost use Rattle.rdo_acts.specs.Selections.{chosen_in_act, chosen_in_acts, RunsAmong, RunsOverAmong};
ghost use Rattle.rdo_acts.specs.Wanted.{RunsWanting, BodyWanting, TuplesWanting};

use crate::printing::print;
use crate::scope::{BoundRow, bound_to, values_now};
use crate::stop::{ActStop, of_select};
use crate::storing::store;
use crate::updating::{erase, modify};
use crate::work::{Given, Work};
use rdb_types::Row;
use rdo_bind::BoundAction;
use rdo_select::{Found, select};
use rdo_values::BoundRange;

/// Whether an action may write a row.
#[cycle(writing)]
pub(crate) fn writes(action: &BoundAction) -> bool
    ensures { result ≡ may_write (act_of action.now) }
{
    match action {
        BoundAction::Print(_) => false,
        BoundAction::For(_, body) => any_writes(body.as_slice()),
        BoundAction::Store(_, _) | BoundAction::Modify(_, _) | BoundAction::Erase(_) => true,
    }
}

#[cycle(writing)]
fn any_writes(body: &[BoundAction]) -> bool
    ensures { result ≡ may_write_any (acts_of (map act_of body.now)) }
{
    for action in body {
        if writes(action) {
            return true;
        }
    }
    false
}

/// Does an action. `values` has the values of all variables as their rows are now.
#[cycle(run)]
pub(crate) fn run_action<'a, 'b>(
    given: &Given<'a>,
    scope: &[BoundRow<'b>],
    values: &Row,
    action: &'b BoundAction,
    work: &mut Work<'_>,
) -> Result<(), ActStop<'a>>
    requires together { GoTogether given.now }
    requires rows { AreRowsOf given.now.schema.now.tables scope.now }
    requires bound { IsBoundAct (act_of action.now) given.now.schema.now.tables (variables_of (scope_of scope.now)) }
    ensures runs { Runs result given.now (scope_of scope.now) values.now (λ start. done (named_act (act_of action.now)) start (scope_of scope.now)) work.old work.new }
    ensures reads { may_write (act_of action.now) ≡ false → work.new.view ≡ work.old.view }
    ensures known { work.new.view.base ≡ work.old.view.base }
    ensures areas { RunsFor result given.now (scope_of scope.now) values.now (action_uses (act_of action.now) (scope_of scope.now)) work.old work.new }
    ensures lacks { may_write (act_of action.now) ≡ false → RunsAmong result given.now (scope_of scope.now) values.now (chosen_in_act (act_of action.now) (variables_of (scope_of scope.now))) work.old }
    ensures wants { RunsWanting result given.now (scope_of scope.now) values.now (act_of action.now) work.old }
{
    match action {
        BoundAction::Print(items) => print(given, items.as_slice(), values, work),
        BoundAction::Store(range, assigns) => {
            store(given, range, assigns.as_slice(), values, work)
        }
        BoundAction::Modify(variable, assigns) => {
            modify(given, scope, variable, assigns.as_slice(), values, work)
        }
        BoundAction::Erase(variable) => erase(given, scope, variable, work),
        BoundAction::For(selection, body) => {
            let found = match select(given.alloc, &work.view, given.sources, selection, values) {
                Ok(found) => found,
                Err(stop) => return Err(of_select(stop)),
            };
            let ranges = selection.inner.ranges.as_slice();
            run_over(
                given,
                scope,
                ranges,
                found.as_slice(),
                body.as_slice(),
                work,
            )
        }
    }
}

// The body for each tuple in turn. Where the body writes, the values beside a tuple may be no more those of its rows.
#[cycle(run)]
fn run_over<'a, 'b>(
    given: &Given<'a>,
    scope: &[BoundRow<'b>],
    ranges: &'b [BoundRange],
    tuples: &[Found],
    body: &'b [BoundAction],
    work: &mut Work<'_>,
) -> Result<(), ActStop<'a>>
    requires together { GoTogether given.now }
    requires rows { AreRowsOf given.now.schema.now.tables scope.now }
    requires ranges { AreRanges ranges.now given.now.schema.now.tables }
    requires bound { AreBoundActs (acts_of (map act_of body.now)) given.now.schema.now.tables (variables_of (scope_of scope.now) ++ ranges_of ranges.now) }
    ensures runs { RunsOver result given.now (scope_of scope.now) (ranges_of ranges.now) tuples.now
        (λ start. over (map (λ f. f.tuple) tuples.now) (λ ks. done_all (named_acts (acts_of (map act_of body.now))) start (bind_tuple (ranges_of ranges.now) ks (scope_of scope.now)))) work.old work.new }
    ensures reads { may_write_any (acts_of (map act_of body.now)) ≡ false → work.new.view ≡ work.old.view }
    ensures known { work.new.view.base ≡ work.old.view.base }
    ensures areas { RunsOverFor result given.now (scope_of scope.now) (ranges_of ranges.now) tuples.now (body_uses (acts_of (map act_of body.now)) (bind_sources (ranges_of ranges.now) (scope_of scope.now))) work.old work.new }
    ensures lacks { may_write_any (acts_of (map act_of body.now)) ≡ false → RunsOverAmong result given.now (scope_of scope.now) (ranges_of ranges.now) tuples.now (chosen_in_acts (acts_of (map act_of body.now)) (variables_of (scope_of scope.now) ++ ranges_of ranges.now)) work.old }
    ensures wants { TuplesWanting result given.now (scope_of scope.now) (ranges_of ranges.now) tuples.now (acts_of (map act_of body.now)) work.old }
{
    let writing = any_writes(body);
    for found in tuples {
        let bound = bound_to(given.alloc, scope, ranges, found.tuple.as_slice())?;
        run_body(given, bound.as_slice(), &found.row, writing, body, work)?;
    }
    Ok(())
}

// The body for one tuple. `values` has the values of the variables as the selection saw them.
#[cycle(run)]
fn run_body<'a, 'b>(
    given: &Given<'a>,
    scope: &[BoundRow<'b>],
    values: &Row,
    writing: bool,
    body: &'b [BoundAction],
    work: &mut Work<'_>,
) -> Result<(), ActStop<'a>>
    requires together { GoTogether given.now }
    requires rows { AreRowsOf given.now.schema.now.tables scope.now }
    requires bound { AreBoundActs (acts_of (map act_of body.now)) given.now.schema.now.tables (variables_of (scope_of scope.now)) }
    requires writing { writing ≡ may_write_any (acts_of (map act_of body.now)) }
    ensures runs { (seen : Values) → (writing ≡ false → seen ≡ values.now) → Runs result given.now (scope_of scope.now) seen (λ start. done_all (named_acts (acts_of (map act_of body.now))) start (scope_of scope.now)) work.old work.new }
    ensures reads { writing ≡ false → work.new.view ≡ work.old.view }
    ensures known { work.new.view.base ≡ work.old.view.base }
    ensures areas { (seen : Values) → (writing ≡ false → seen ≡ values.now) → RunsFor result given.now (scope_of scope.now) seen (body_uses (acts_of (map act_of body.now)) (scope_of scope.now)) work.old work.new }
    ensures lacks { writing ≡ false → RunsAmong result given.now (scope_of scope.now) values.now (chosen_in_acts (acts_of (map act_of body.now)) (variables_of (scope_of scope.now))) work.old }
    ensures wants { (seen : Values) → (writing ≡ false → seen ≡ values.now) → BodyWanting result given.now (scope_of scope.now) seen (acts_of (map act_of body.now)) work.old }
{
    if writing {
        run_anew(given, scope, body, work)
    } else {
        run_reading(given, scope, values, body, work)
    }
}

// The actions of a body that writes: the values of the variables are read again before each.
#[cycle(run)]
fn run_anew<'a, 'b>(
    given: &Given<'a>,
    scope: &[BoundRow<'b>],
    body: &'b [BoundAction],
    work: &mut Work<'_>,
) -> Result<(), ActStop<'a>>
    requires together { GoTogether given.now }
    requires rows { AreRowsOf given.now.schema.now.tables scope.now }
    requires bound { AreBoundActs (acts_of (map act_of body.now)) given.now.schema.now.tables (variables_of (scope_of scope.now)) }
    ensures runs { (values : Values) → Runs result given.now (scope_of scope.now) values (λ start. done_all (named_acts (acts_of (map act_of body.now))) start (scope_of scope.now)) work.old work.new }
    ensures known { work.new.view.base ≡ work.old.view.base }
    ensures areas { (values : Values) → RunsFor result given.now (scope_of scope.now) values (body_uses (acts_of (map act_of body.now)) (scope_of scope.now)) work.old work.new }
    ensures wants { (values : Values) → BodyWanting result given.now (scope_of scope.now) values (acts_of (map act_of body.now)) work.old }
{
    for action in body {
        let values = match values_now(given, &work.view, scope) {
            Ok(values) => values,
            Err(stop) => return Err(stop.of_view()),
        };
        run_action(given, scope, &values, action, work)?;
    }
    Ok(())
}

// The actions of a body that doesn't write.
#[cycle(run)]
fn run_reading<'a, 'b>(
    given: &Given<'a>,
    scope: &[BoundRow<'b>],
    values: &Row,
    body: &'b [BoundAction],
    work: &mut Work<'_>,
) -> Result<(), ActStop<'a>>
    requires together { GoTogether given.now }
    requires rows { AreRowsOf given.now.schema.now.tables scope.now }
    requires bound { AreBoundActs (acts_of (map act_of body.now)) given.now.schema.now.tables (variables_of (scope_of scope.now)) }
    requires reading { may_write_any (acts_of (map act_of body.now)) ≡ false }
    ensures runs { Runs result given.now (scope_of scope.now) values.now (λ start. done_all (named_acts (acts_of (map act_of body.now))) start (scope_of scope.now)) work.old work.new }
    ensures reads { work.new.view ≡ work.old.view }
    ensures areas { RunsFor result given.now (scope_of scope.now) values.now (body_uses (acts_of (map act_of body.now)) (scope_of scope.now)) work.old work.new }
    ensures lacks { RunsAmong result given.now (scope_of scope.now) values.now (chosen_in_acts (acts_of (map act_of body.now)) (variables_of (scope_of scope.now))) work.old }
    ensures wants { BodyWanting result given.now (scope_of scope.now) values.now (acts_of (map act_of body.now)) work.old }
{
    for action in body {
        run_action(given, scope, values, action, work)?;
    }
    Ok(())
}
