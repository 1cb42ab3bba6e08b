// PRINT.
ghost use Rattle.std.specs.Prelude.{◌≡◌, ◌+◌, [], ◌∷◌, map, slice_get, IfOk};
ghost use Rattle.std.specs.Option.{option_copied};
ghost use Rattle.std.specs.List.{All};
ghost use Rattle.rdb_meaning.specs.declared.tables.Tables.{Tables as Kept};
ghost use Rattle.rdb_meaning.specs.Checks.{shown_uses};
ghost use Rattle.rdb_meaning.specs.Evaluation.{Scope, scaled_if};
ghost use Rattle.rdb_meaning.specs.Execution.{line as printed, item_line as line_of_item, printed as line_of_items};
ghost use Rattle.line_view.specs.Knowledge.{Lines};
ghost use Rattle.rdo_values.specs.Rows.{row_of, variables_of};
ghost use Rattle.rdo_bind.specs.Acting.{written_item, IsBoundItem};
ghost use Rattle.row_writes.specs.Rows.{IsSoundView};
ghost use Rattle.rdo_acts.specs.Printing.{values_line, IsNoLine, prints};
ghost use Rattle.rdo_acts.specs.Ends.{GoTogether, Computes, Runs};
ghost use Rattle.rdo_acts.specs.Areas.{ReadsFor, RunsFor};
ghost use Rattle.rdo_acts.specs.Selections.{chosen_in_items, ReadsAmong, RunsAmong};

use crate::stop::{ActStop, of_select};
use crate::work::{Given, Work};
use rdb_types::{FieldType, Items, NoMemory, Printed, Row, Scaled, Value};
use rdo_arithmetic::{Stop as EvaluationStop, scaled};
use rdo_bind::{BoundPrintItem, BoundVariable};
use rdo_select::value_in;
use sqlite_items::at as item_at;
use statement_view::Changed;
use std::alloc::Global;

// The value so far behind a place.
fn value_behind(values: &Row, place: usize, at: usize) -> Option<&Value>
    ensures { option_copied result ≡ slice_get values.now (place + at) }
{
    let count = values.len();
    if place >= count || at >= count - place {
        return None;
    }
    values.get(place + at)
}

fn value_at(
    alloc: Global,
    kind: &FieldType,
    values: &Row,
    place: usize,
    at: usize,
) -> Result<Scaled, NoMemory>
    ensures { IfOk result (λ v. v ≡ scaled_if kind.now (slice_get values.now (place + at))) }
{
    match value_behind(values, place, at) {
        Some(value) => match scaled(alloc, kind, value) {
            Ok(scaled) => Ok(scaled),
            Err(EvaluationStop::Memory) => Err(NoMemory {}),
            Err(EvaluationStop::Overflow) => unreachable!(),
        },
        None => Ok(Scaled {
            value: Value::Missing,
            scale: 0,
        }),
    }
}

// The values of a variable's row in the order of definition.
fn all_fields(alloc: Global, variable: &BoundVariable, values: &Row) -> Result<Printed, NoMemory>
    ensures { IfOk result (λ line. line ≡ values_line variable.now.kinds variable.now.place values.now) }
{
    let kinds = variable.kinds.as_slice();
    let mut line = Items::new(alloc);
    for at in 0..kinds.len() {
        let Some(kind) = item_at(kinds, at) else {
            unreachable!();
        };
        line.push(value_at(alloc, kind, values, variable.place, at)?)?;
    }
    Ok(line)
}

fn one_value(alloc: Global, value: Scaled) -> Result<Printed, NoMemory>
    ensures { IfOk result (λ line. line ≡ value ∷ []) }
{
    let mut line = Items::new(alloc);
    line.push(value)?;
    Ok(line)
}

fn item_line<'a>(
    given: &Given<'a>,
    view: &Changed<'_>,
    item: &BoundPrintItem,
    values: &Row,
) -> Result<Printed, ActStop<'a>>
    requires { GoTogether given.now }
    ensures line { (first : Lines) (t : Kept) (scope : Scope) → IsSoundView view.now given.now.schema.now t first → IsBoundItem t (variables_of scope) item.now → row_of t scope ≡ values.now
        → Computes result view.now (λ line. line_of_item (written_item item.now) t scope ≡ printed line) (λ refusal. IsNoLine refusal (line_of_item (written_item item.now) t scope)) }
    ensures areas { (first : Lines) (t : Kept) (scope : Scope) → IsSoundView view.now given.now.schema.now t first → IsBoundItem t (variables_of scope) item.now → row_of t scope ≡ values.now → ReadsFor t (shown_uses (written_item item.now ∷ [])) result }
    ensures lacks { (first : Lines) (t : Kept) (scope : Scope) → IsSoundView view.now given.now.schema.now t first → IsBoundItem t (variables_of scope) item.now → row_of t scope ≡ values.now → ReadsAmong t given.now.sources.now.entries (chosen_in_items (item.now ∷ []) (variables_of scope)) result }
{
    match item {
        BoundPrintItem::Value(expression) => {
            let value = match value_in(given.alloc, view, given.sources, expression, values) {
                Ok(value) => value,
                Err(stop) => return Err(of_select(stop)),
            };
            Ok(one_value(given.alloc, value)?)
        }
        BoundPrintItem::Fields(variable) => Ok(all_fields(given.alloc, variable, values)?),
    }
}

fn printed_line<'a>(
    given: &Given<'a>,
    view: &Changed<'_>,
    items: &[BoundPrintItem],
    values: &Row,
) -> Result<Printed, ActStop<'a>>
    requires { GoTogether given.now }
    ensures line { (first : Lines) (t : Kept) (scope : Scope) → IsSoundView view.now given.now.schema.now t first → All (IsBoundItem t (variables_of scope)) items.now → row_of t scope ≡ values.now
        → Computes result view.now (λ line. line_of_items (map written_item items.now) t scope ≡ printed line) (λ refusal. IsNoLine refusal (line_of_items (map written_item items.now) t scope)) }
    ensures areas { (first : Lines) (t : Kept) (scope : Scope) → IsSoundView view.now given.now.schema.now t first → All (IsBoundItem t (variables_of scope)) items.now → row_of t scope ≡ values.now → ReadsFor t (shown_uses (map written_item items.now)) result }
    ensures lacks { (first : Lines) (t : Kept) (scope : Scope) → IsSoundView view.now given.now.schema.now t first → All (IsBoundItem t (variables_of scope)) items.now → row_of t scope ≡ values.now → ReadsAmong t given.now.sources.now.entries (chosen_in_items items.now (variables_of scope)) result }
{
    let mut line = Items::new(given.alloc);
    for item in items {
        let piece = item_line(given, view, item, values)?;
        line.append(piece)?;
    }
    Ok(line)
}

/// Prints one line. `values` has the values of all variables.
pub(crate) fn print<'a>(
    given: &Given<'a>,
    items: &[BoundPrintItem],
    values: &Row,
    work: &mut Work<'_>,
) -> Result<(), ActStop<'a>>
    requires { GoTogether given.now }
    ensures runs { (scope : Scope) → All (IsBoundItem given.now.schema.now.tables (variables_of scope)) items.now → Runs result given.now scope values.now (prints (map written_item items.now) scope) work.old work.new }
    ensures view { work.new.view ≡ work.old.view }
    ensures areas { (scope : Scope) → All (IsBoundItem given.now.schema.now.tables (variables_of scope)) items.now → RunsFor result given.now scope values.now (shown_uses (map written_item items.now)) work.old work.new }
    ensures lacks { (scope : Scope) → All (IsBoundItem given.now.schema.now.tables (variables_of scope)) items.now → RunsAmong result given.now scope values.now (chosen_in_items items.now (variables_of scope)) work.old }
{
    let line = printed_line(given, &work.view, items, values)?;
    work.lines.push(line)?;
    Ok(())
}
