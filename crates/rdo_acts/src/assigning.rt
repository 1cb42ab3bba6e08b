// The row that assignments make.
ghost use Rattle.std.specs.Prelude.{◌≡◌, ◌∷◌, [], map, slice_set};
ghost use Rattle.std.specs.List.{All};
ghost use Rattle.rdb_meaning.specs.declared.tables.Tables.{Tables as Kept};
ghost use Rattle.rdb_meaning.specs.Checks.{assignments_uses};
ghost use Rattle.rdb_meaning.specs.Evaluation.{Scope};
ghost use Rattle.rdb_meaning.specs.Execution.{assign as assigning, assigned};
ghost use Rattle.line_view.specs.Knowledge.{Lines};
ghost use Rattle.rdo_values.specs.Rows.{row_of, variables_of};
ghost use Rattle.rdo_bind.specs.Assigning.{written_assign, IsBoundAssign};
ghost use Rattle.row_writes.specs.Rows.{IsSoundView};
ghost use Rattle.rdo_acts.specs.Ends.{GoTogether, Computes, IsUnassigned, reply_of};
ghost use Rattle.rdo_acts.specs.Areas.{ReadsFor};
ghost use Rattle.rdo_acts.specs.Selections.{chosen_in_assigns, ReadsAmong};

use crate::stop::{ActStop, of_misfit, of_select};
use crate::work::Given;
use rdb_meaning::{FieldAt, field_of};
use rdb_types::{Field, Row, Value};
use rdo_arithmetic::fit;
use rdo_bind::BoundAssign;
use rdo_select::value_in;
use statement_view::Changed;

// A place past the end is none of the row.
fn put(row: &mut Row, place: usize, value: Value)
    ensures { row.new ≡ slice_set row.old place value }
{
    if place < row.len() {
        row.set(place, value);
    }
}

fn assign_one<'a>(
    given: &Given<'a>,
    view: &Changed<'_>,
    fields: &[Field],
    assign: &BoundAssign,
    values: &Row,
    row: &mut Row,
) -> Result<(), ActStop<'a>>
    requires { GoTogether given.now }
    ensures assigns { (first : Lines) (t : Kept) (scope : Scope) → IsSoundView view.now given.now.schema.now t first → IsBoundAssign t (variables_of scope) assign.now → row_of t scope ≡ values.now
        → Computes result view.now (λ done. assigning (written_assign assign.now ∷ []) fields.now t scope row.old ≡ assigned row.new) (λ refusal. IsUnassigned (reply_of refusal) (assigning (written_assign assign.now ∷ []) fields.now t scope row.old)) }
    ensures areas { (first : Lines) (t : Kept) (scope : Scope) → IsSoundView view.now given.now.schema.now t first → IsBoundAssign t (variables_of scope) assign.now → row_of t scope ≡ values.now → ReadsFor t (assignments_uses (written_assign assign.now ∷ [])) result }
    ensures lacks { (first : Lines) (t : Kept) (scope : Scope) → IsSoundView view.now given.now.schema.now t first → IsBoundAssign t (variables_of scope) assign.now → row_of t scope ≡ values.now → ReadsAmong t given.now.sources.now.entries (chosen_in_assigns (assign.now ∷ []) (variables_of scope)) result }
{
    let Some(found) = field_of(fields, &assign.left.reference.field) else {
        return Ok(());
    };
    let FieldAt { place, field } = found;
    let value = match value_in(given.alloc, view, given.sources, &assign.right, values) {
        Ok(value) => value,
        Err(stop) => return Err(of_select(stop)),
    };
    match fit(&field.kind, value) {
        Ok(kept) => {
            put(row, place, kept);
            Ok(())
        }
        Err(misfit) => Err(of_misfit(misfit)),
    }
}

/// Computes each value and makes it fit, in the order of the text, on the rows as they are before this one is written. `values` has the values of all variables.
pub(crate) fn assign_all<'a>(
    given: &Given<'a>,
    view: &Changed<'_>,
    fields: &[Field],
    assigns: &[BoundAssign],
    values: &Row,
    row: &mut Row,
) -> Result<(), ActStop<'a>>
    requires { GoTogether given.now }
    ensures assigns { (first : Lines) (t : Kept) (scope : Scope) → IsSoundView view.now given.now.schema.now t first → All (IsBoundAssign t (variables_of scope)) assigns.now → row_of t scope ≡ values.now
        → Computes result view.now (λ done. assigning (map written_assign assigns.now) fields.now t scope row.old ≡ assigned row.new) (λ refusal. IsUnassigned (reply_of refusal) (assigning (map written_assign assigns.now) fields.now t scope row.old)) }
    ensures areas { (first : Lines) (t : Kept) (scope : Scope) → IsSoundView view.now given.now.schema.now t first → All (IsBoundAssign t (variables_of scope)) assigns.now → row_of t scope ≡ values.now → ReadsFor t (assignments_uses (map written_assign assigns.now)) result }
    ensures lacks { (first : Lines) (t : Kept) (scope : Scope) → IsSoundView view.now given.now.schema.now t first → All (IsBoundAssign t (variables_of scope)) assigns.now → row_of t scope ≡ values.now → ReadsAmong t given.now.sources.now.entries (chosen_in_assigns assigns.now (variables_of scope)) result }
{
    for assign in assigns {
        assign_one(given, view, fields, assign, values, row)?;
    }
    Ok(())
}
