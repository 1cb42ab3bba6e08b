//! The lines that PRINT prints.
ghost use Rattle.std.specs.Prelude.{◌≡◌, IfOk, map, slice_get};
ghost use Rattle.rdo_ast.specs.Views.{shown_of};
ghost use Rattle.rdb_meaning.specs.Contents.{fields_of, relation_named};
ghost use Rattle.rdb_meaning.specs.Evaluation.{bound_as, row_now, scaled_if};
ghost use Rattle.rdb_meaning.specs.Execution.{row_line as line_of_row, fields_line, binding_line, item_line as line_of_item, printed};
ghost use Rattle.rdb_tables.specs.Answers.{PrintsLine};

use crate::stop::Stop;
use rdb_evaluation::value_of;
use rdb_meaning::{Binding, Tables, binding_of};
use rdb_types::{Chars, Field, Items, NoMemory, Printed, Scaled, Value};
use rdo_arithmetic::{Stop as EvaluationStop, scaled};
use rdo_ast::syntax::PrintItem;
use std::alloc::Global;

fn value_at(alloc: Global, field: &Field, row: &[Value], at: usize) -> Result<Scaled, NoMemory>
    ensures { IfOk result (λ v. v ≡ scaled_if field.now.kind (slice_get row.now at)) }
{
    match row.get(at) {
        Some(value) => match scaled(alloc, &field.kind, value) {
            Ok(scaled) => Ok(scaled),
            Err(EvaluationStop::Memory) => Err(NoMemory {}),
            Err(EvaluationStop::Overflow) => unreachable!(),
        },
        None => Ok(Scaled {
            value: Value::Missing,
            scale: 0,
        }),
    }
}

// The row's values in the order of definition.
fn row_line(alloc: Global, fields: &[Field], row: &[Value]) -> Result<Printed, NoMemory>
    ensures { IfOk result (λ values. values ≡ line_of_row fields.now row.now) }
{
    let mut values = Items::new(alloc);
    for (at, field) in fields.iter().enumerate() {
        values.push(value_at(alloc, field, row, at)?)?;
    }
    Ok(values)
}

fn bound_line(alloc: Global, tables: &Tables, binding: &Binding) -> Result<Printed, NoMemory>
    ensures { IfOk result
        (λ values. values ≡ fields_line (fields_of (relation_named binding.now.relation tables.now)) (row_now tables.now binding.now)) }
{
    let Some(relation) = tables.relation(&binding.relation) else {
        return Ok(Items::new(alloc));
    };
    let fields = relation.fields.as_slice();
    let Some(key) = binding.key else {
        return row_line(alloc, fields, &[]);
    };
    match relation.row(&key) {
        Some(row) => row_line(alloc, fields, row.as_slice()),
        None => row_line(alloc, fields, &[]),
    }
}

// The values of all fields of a variable's row.
fn all_fields(
    alloc: Global,
    tables: &Tables,
    scope: &[Binding],
    variable: &Chars,
) -> Result<Printed, NoMemory>
    ensures { IfOk result (λ values. values ≡ binding_line tables.now (bound_as variable.now scope.now)) }
{
    match binding_of(scope, variable) {
        Some(binding) => bound_line(alloc, tables, binding),
        None => Ok(Items::new(alloc)),
    }
}

fn item_line(
    alloc: Global,
    tables: &Tables,
    scope: &[Binding],
    item: &PrintItem,
) -> Result<Printed, Stop>
    ensures { PrintsLine result (line_of_item (shown_of item.now) tables.now scope.now) }
{
    match item {
        PrintItem::Value(expression) => {
            let mut values = Items::new(alloc);
            values.push(value_of(alloc, tables, scope, expression)?)?;
            Ok(values)
        }
        PrintItem::Fields(variable) => Ok(all_fields(alloc, tables, scope, variable)?),
    }
}

/// The line of these items, on the tables as they are.
#[tactic(auto, using(crate::proofs::JoinedLines::joined_assoc, crate::proofs::JoinedLines::joined_nothing))]
pub fn printed_line(
    alloc: Global,
    tables: &Tables,
    scope: &[Binding],
    items: &[PrintItem],
) -> Result<Printed, Stop>
    ensures { PrintsLine result (printed (map shown_of items.now) tables.now scope.now) }
{
    let mut values = Items::new(alloc);
    for item in items {
        values.append(item_line(alloc, tables, scope, item)?)?;
    }
    Ok(values)
}
