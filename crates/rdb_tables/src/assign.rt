//! The row that assignments make.
ghost use Rattle.std.specs.Prelude.{◌≡◌, [], ◌∷◌, map, length, replicate, IfOk};
ghost use Rattle.rdb_types.specs.declared.values.Value.TheVariants.{Missing as MissingValue};
ghost use Rattle.rdo_ast.specs.Views.{assignment_of};
ghost use Rattle.rdb_meaning.specs.Execution.{assign};
ghost use Rattle.rdb_tables.specs.Answers.{AssignsTo};

use crate::stop::Stop;
use rdb_evaluation::value_of;
use rdb_meaning::{Binding, FieldAt, Tables, field_of};
use rdb_types::{Field, Items, NoMemory, Row, Value};
use rdo_arithmetic::fit;
use rdo_ast::syntax::Assign;
use std::alloc::Global;

/// A row whose values are all missing.
pub fn missing_row(alloc: Global, fields: &[Field]) -> Result<Row, NoMemory>
    ensures { IfOk result (λ row. row ≡ replicate (length fields.now) MissingValue) }
{
    let mut row = Items::new(alloc);
    for _field in fields {
        row.push(Value::Missing)?;
    }
    Ok(row)
}

fn assign_one(
    alloc: Global,
    tables: &Tables,
    scope: &[Binding],
    fields: &[Field],
    assignment: &Assign,
    row: &mut Row,
) -> Result<(), Stop>
    ensures { AssignsTo result
        (assign (assignment_of assignment.now ∷ []) fields.now tables.now scope.now row.old) row.new }
{
    let Some(FieldAt { place, field }) = field_of(fields, &assignment.left.field) else {
        return Ok(());
    };
    let value = value_of(alloc, tables, scope, &assignment.right)?;
    let kept = fit(&field.kind, value)?;
    if place < row.len() {
        row.set(place, kept);
    }
    Ok(())
}

/// Computes each value and makes it fit, in the order of the text, on the tables as they are before the row is written.
pub fn assign_all(
    alloc: Global,
    tables: &Tables,
    scope: &[Binding],
    fields: &[Field],
    assignments: &[Assign],
    row: &mut Row,
) -> Result<(), Stop>
    ensures { AssignsTo result
        (assign (map assignment_of assignments.now) fields.now tables.now scope.now row.old) row.new }
{
    for assignment in assignments {
        assign_one(alloc, tables, scope, fields, assignment, row)?;
    }
    Ok(())
}
