// STORE.
ghost use Rattle.std.specs.Prelude.{◌≡◌, ◌++◌, ◌∷◌, [], Some, None, IsSome, length, map};
ghost use Rattle.std.specs.List.{All};
ghost use Rattle.rdo_ast.specs.declared.syntax.Range.{Range as Ranged};
ghost use Rattle.rdb_meaning.specs.declared.tables.Tables.{Tables as Kept};
ghost use Rattle.rdb_meaning.specs.declared.tables.Relation.{Relation as Table};
ghost use Rattle.rdb_meaning.specs.Checks.{assignments_uses, act_uses};
ghost use Rattle.rdb_meaning.specs.Contents.{relation_named};
ghost use Rattle.rdb_meaning.specs.Evaluation.{Scope, bind_source};
ghost use Rattle.rdb_meaning.specs.Execution.{assign as assigning, assigned, stored};
ghost use Rattle.line_view.specs.Knowledge.{Lines};
ghost use Rattle.rdo_values.specs.Rows.{row_of, variables_of};
ghost use Rattle.rdo_bind.specs.Acting.{store as store_act, named_act, IsBoundAct};
ghost use Rattle.rdo_bind.specs.Assigning.{written_assign, IsBoundAssign};
ghost use Rattle.row_writes.specs.Rows.{IsSoundView};
ghost use Rattle.rdo_acts.specs.Scopes.{missing_values};
ghost use Rattle.rdo_acts.specs.Ends.{GoTogether, Computes, IsUnassigned, reply_of, Runs};
ghost use Rattle.rdo_acts.specs.Areas.{ReadsFor, RunsFor};
ghost use Rattle.rdo_acts.specs.Selections.{chosen_in_assigns, ReadsAmong};
ghost use Rattle.rdo_acts.specs.Wanted.{RunsWanting};

use crate::assigning::assign_all;
use crate::scope::{missing_row, with_missing};
use crate::stop::{ActStop, of_row};
use crate::work::{Given, Work};
use rdb_types::{Field, Row};
use rdo_bind::BoundAssign;
use rdo_values::BoundRange;
use row_writes::store_row;
use statement_view::Changed;

// A field that isn't assigned is missing, and so are the values of the variable that is stored.
fn new_row<'a>(
    given: &Given<'a>,
    view: &Changed<'_>,
    fields: &[Field],
    assigns: &[BoundAssign],
    values: &Row,
) -> Result<Row, ActStop<'a>>
    requires { GoTogether given.now }
    ensures row { (first : Lines) (t : Kept) (scope : Scope) (s : Ranged) (table : Table) → IsSoundView view.now given.now.schema.now t first → relation_named s.relation t ≡ Some table → table.fields ≡ fields.now
        → All (IsBoundAssign t (variables_of scope ++ s ∷ [])) assigns.now → row_of t scope ≡ values.now
        → Computes result view.now (λ row. assigning (map written_assign assigns.now) fields.now t (scope ++ bind_source s None ∷ []) (missing_values (length fields.now)) ≡ assigned row)
        (λ refusal. IsUnassigned (reply_of refusal) (assigning (map written_assign assigns.now) fields.now t (scope ++ bind_source s None ∷ []) (missing_values (length fields.now)))) }
    ensures areas { (first : Lines) (t : Kept) (scope : Scope) (s : Ranged) (table : Table) → IsSoundView view.now given.now.schema.now t first → relation_named s.relation t ≡ Some table → table.fields ≡ fields.now
        → All (IsBoundAssign t (variables_of scope ++ s ∷ [])) assigns.now → row_of t scope ≡ values.now → ReadsFor t (assignments_uses (map written_assign assigns.now)) result }
    ensures lacks { (first : Lines) (t : Kept) (scope : Scope) (s : Ranged) (table : Table) → IsSoundView view.now given.now.schema.now t first → relation_named s.relation t ≡ Some table → table.fields ≡ fields.now
        → All (IsBoundAssign t (variables_of scope ++ s ∷ [])) assigns.now → row_of t scope ≡ values.now → ReadsAmong t given.now.sources.now.entries (chosen_in_assigns assigns.now (variables_of scope ++ s ∷ [])) result }
{
    let all = with_missing(given.alloc, values, fields.len())?;
    let mut row = missing_row(given.alloc, fields.len())?;
    assign_all(given, view, fields, assigns, &all, &mut row)?;
    Ok(row)
}

/// Stores a row, and notes the Dbkey that it got. `values` has the values of the variables outside.
pub(crate) fn store<'a>(
    given: &Given<'a>,
    range: &BoundRange,
    assigns: &[BoundAssign],
    values: &Row,
    work: &mut Work<'_>,
) -> Result<(), ActStop<'a>>
    requires together { GoTogether given.now }
    requires there { IsSome (relation_named range.now.range.relation given.now.schema.now.tables) }
    ensures runs { (scope : Scope) → IsBoundAct (store_act range.now assigns.now) given.now.schema.now.tables (variables_of scope)
        → Runs result given.now scope values.now (λ start. stored range.now.range (map written_assign assigns.now) start scope) work.old work.new }
    ensures known { work.new.view.base ≡ work.old.view.base }
    ensures areas { (scope : Scope) → IsBoundAct (store_act range.now assigns.now) given.now.schema.now.tables (variables_of scope)
        → RunsFor result given.now scope values.now (act_uses (named_act (store_act range.now assigns.now)) scope) work.old work.new }
    ensures wants { (scope : Scope) → IsBoundAct (store_act range.now assigns.now) given.now.schema.now.tables (variables_of scope) → RunsWanting result given.now scope values.now (store_act range.now assigns.now) work.old }
{
    let Some(target) = given.schema.target(&range.range.relation) else {
        unreachable!();
    };
    let row = new_row(given, &work.view, target.stored.fields, assigns, values)?;
    match store_row(given.alloc, &mut work.view, &target, row.as_slice()) {
        Ok(key) => {
            work.given.push(key)?;
            Ok(())
        }
        Err(stop) => Err(of_row(stop, target.indexes)),
    }
}
