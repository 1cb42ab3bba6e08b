// MODIFY and ERASE.
ghost use Rattle.std.specs.Prelude.{◌≡◌, ◌∷◌, [], map, option_and_then, Some};
ghost use Rattle.std.specs.FinMap.Entries.{find};
ghost use Rattle.rdb_types.specs.Order.{dbkey_order};
ghost use Rattle.rdb_meaning.specs.declared.tables.Tables.{Tables as Kept};
ghost use Rattle.rdb_meaning.specs.declared.tables.Relation.{Relation as Table};
ghost use Rattle.rdb_meaning.specs.Checks.{act_uses};
ghost use Rattle.rdb_meaning.specs.Contents.{Row as Values, relation_named};
ghost use Rattle.rdb_meaning.specs.Execution.{modified, erased};
ghost use Rattle.line_view.specs.Knowledge.{Lines};
ghost use Rattle.rdo_values.specs.Rows.{variables_of};
ghost use Rattle.rdo_bind.specs.Acting.{modify as modify_act, erase as erase_act, named_act, IsBoundAct};
ghost use Rattle.rdo_bind.specs.Assigning.{written_assign};
ghost use Rattle.row_writes.specs.Rows.{IsSoundView};
ghost use Rattle.selection_areas.specs.stored_schema.Targets.{IsTargetIn};
ghost use Rattle.rdo_acts.specs.Scopes.{scope_of, AreRowsOf};
ghost use Rattle.rdo_acts.specs.Ends.{GoTogether, Computes, Runs};
ghost use Rattle.rdo_acts.specs.Areas.{ReadsIn, RunsFor};
ghost use Rattle.rdo_acts.specs.Wanted.{IsRowOf, Lacking, RunsWanting};

use crate::assigning::assign_all;
use crate::scope::{BoundRow, row_at};
use crate::stop::{ActStop, of_row};
use crate::work::{Given, Work};
use line_view::{Never, Stop};
use rdb_types::{Copied, Row};
use rdo_bind::{BoundAssign, BoundVariable};
use row_writes::{TargetRelation, change_row, erase_row};

// What is written of the relation of a variable, and its row as it is now.
fn row_now<'a>(
    given: &Given<'a>,
    variable: BoundRow<'_>,
    work: &Work<'_>,
) -> Result<(TargetRelation<'a>, Option<Row>), Stop<Never>>
    requires { AreRowsOf given.now.schema.now.tables (variable ∷ []) }
    ensures row { (first : Lines) (t : Kept) (table : Table) → IsSoundView work.now.view given.now.schema.now t first → relation_named variable.entry.range.now.range.relation t ≡ Some table
        → Computes result work.now.view (λ found. IsTargetIn given.now.schema.now t variable.entry.range.now.range.relation table found.0 × (found.1 ≡ option_and_then (λ k. find dbkey_order k table.rows) variable.entry.key)) (λ never. ⊥) }
    ensures areas { (first : Lines) (t : Kept) (table : Table) → IsSoundView work.now.view given.now.schema.now t first → relation_named variable.entry.range.now.range.relation t ≡ Some table → ReadsIn (table.area ∷ []) result }
    ensures line { Lacking (IsRowOf (scope_of (variable.entry ∷ []))) result }
{
    let Some(target) = given.schema.target(&variable.range.range.relation) else {
        unreachable!();
    };
    let row = row_at(given.alloc, &work.view, &target.stored, variable.key)?;
    Ok((target, row))
}

/// Modifies the row of a variable as it is now; where it has none any more, nothing is done. `values` has the values of all variables.
pub(crate) fn modify<'a>(
    given: &Given<'a>,
    scope: &[BoundRow<'_>],
    variable: &BoundVariable,
    assigns: &[BoundAssign],
    values: &Row,
    work: &mut Work<'_>,
) -> Result<(), ActStop<'a>>
    requires together { GoTogether given.now }
    requires rows { AreRowsOf given.now.schema.now.tables scope.now }
    requires bound { IsBoundAct (modify_act variable.now assigns.now) given.now.schema.now.tables (variables_of (scope_of scope.now)) }
    ensures runs { Runs result given.now (scope_of scope.now) values.now (λ start. modified variable.now.variable (map written_assign assigns.now) (scope_of scope.now)) work.old work.new }
    ensures known { work.new.view.base ≡ work.old.view.base }
    ensures areas { RunsFor result given.now (scope_of scope.now) values.now (act_uses (named_act (modify_act variable.now assigns.now)) (scope_of scope.now)) work.old work.new }
    ensures wants { RunsWanting result given.now (scope_of scope.now) values.now (modify_act variable.now assigns.now) work.old }
{
    let Some(bound) = scope.get(variable.number) else {
        unreachable!();
    };
    let (target, was) = match row_now(given, *bound, work) {
        Ok(found) => found,
        Err(stop) => return Err(stop.of_view()),
    };
    let (Some(at), Some(was)) = (bound.key, was) else {
        return Ok(());
    };
    let mut row = was.copied(given.alloc)?;
    let fields = target.stored.fields;
    assign_all(given, &work.view, fields, assigns, values, &mut row)?;
    let (was, row) = (was.as_slice(), row.as_slice());
    match change_row(given.alloc, &mut work.view, &target, at, was, row) {
        Ok(()) => Ok(()),
        Err(stop) => Err(of_row(stop, target.indexes)),
    }
}

/// Erases the row of a variable; where it has none any more, nothing is done.
pub(crate) fn erase<'a>(
    given: &Given<'a>,
    scope: &[BoundRow<'_>],
    variable: &BoundVariable,
    work: &mut Work<'_>,
) -> Result<(), ActStop<'a>>
    requires rows { AreRowsOf given.now.schema.now.tables scope.now }
    requires bound { IsBoundAct (erase_act variable.now) given.now.schema.now.tables (variables_of (scope_of scope.now)) }
    ensures runs { (values : Values) → Runs result given.now (scope_of scope.now) values (λ start. erased variable.now.variable (scope_of scope.now)) work.old work.new }
    ensures known { work.new.view.base ≡ work.old.view.base }
    ensures areas { (values : Values) → RunsFor result given.now (scope_of scope.now) values (act_uses (named_act (erase_act variable.now)) (scope_of scope.now)) work.old work.new }
    ensures wants { (values : Values) → RunsWanting result given.now (scope_of scope.now) values (erase_act variable.now) work.old }
{
    let Some(bound) = scope.get(variable.number) else {
        unreachable!();
    };
    let (target, was) = match row_now(given, *bound, work) {
        Ok(found) => found,
        Err(stop) => return Err(stop.of_view()),
    };
    let (Some(at), Some(was)) = (bound.key, was) else {
        return Ok(());
    };
    match erase_row(
        given.alloc,
        &mut work.view,
        target.indexes,
        at,
        was.as_slice(),
    ) {
        Ok(()) => Ok(()),
        Err(stop) => Err(of_row(stop, target.indexes)),
    }
}
