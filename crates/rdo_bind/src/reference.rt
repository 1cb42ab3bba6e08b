//! References and ranges.
ghost use Rattle.std.specs.Prelude.{◌≡◌, Some, option_map, IfOk};
ghost use Rattle.rdo_ast.specs.declared.reply.Reply.TheVariants.{NoSuch as no_such};
ghost use Rattle.rdb_meaning.specs.Contents.{relation_named, fields_of as fields_in};
ghost use Rattle.rdb_meaning.specs.Lookups.{place_and_field};
ghost use Rattle.rdb_meaning.specs.Evaluation.{bound_as};
ghost use Rattle.rdb_meaning.specs.Checks.{or_else, needs_some, reference_names, source_names};
ghost use Rattle.rdb_checks.specs.Answers.{Finds};
ghost use Rattle.rdo_values.specs.Rows.{variables_of};
ghost use Rattle.rdo_values.specs.Places.{place_of_field, behind, located as located_in, IsPlaced, IsRangeOf};
ghost use Rattle.rdo_bind.specs.Answers.{Refuses, place_of};

use crate::refusal::{existing_name, no_such_name};
use rdb_checks::Stop;
use rdb_meaning::{Binding, FieldAt, Scope, Tables, binding_of, field_of, same_name};
use rdb_types::{Chars, Copied, Field, FieldType, NoMemory};
use rdo_ast::syntax::{Range, Reference};
use rdo_values::{BoundRange, BoundReference};
use std::alloc::Global;

/// The place of a value in the row of all bound variables, and its type.
#[derive(Drop)]
pub(crate) struct ValuePlace {
    pub place: usize,
    pub kind: FieldType,
}

pub(crate) fn fields_of<'a>(tables: &'a Tables, relation: &Chars) -> &'a [Field]
    ensures { result.now ≡ fields_in (relation_named relation.now tables.now) }
{
    match tables.relation(relation) {
        Some(relation) => relation.fields.as_slice(),
        None => &[],
    }
}

/// A field behind so many other values.
fn field_behind(before: usize, found: Option<FieldAt>) -> Result<Option<ValuePlace>, NoMemory>
    ensures { IfOk result (λ at. option_map place_of at ≡ option_map (behind before) (option_map place_of_field (place_and_field found.entry))) }
{
    let Some(FieldAt { place, field }) = found else {
        return Ok(None);
    };
    match before.checked_add(place) {
        Some(place) => Ok(Some(ValuePlace {
            place,
            kind: field.kind,
        })),
        None => Err(NoMemory {}),
    }
}

/// Where a reference's value stands in the row of all bound variables.
fn located(
    tables: &Tables,
    scope: &[Binding],
    reference: &Reference,
) -> Result<Option<ValuePlace>, NoMemory>
    ensures { IfOk result (λ at. option_map place_of at ≡ located_in reference.now tables.now (variables_of scope.now)) }
{
    let mut before = 0usize;
    for binding in scope {
        let fields = fields_of(tables, &binding.relation);
        if same_name(&reference.variable, &binding.variable) {
            return field_behind(before, field_of(fields, &reference.field));
        }
        let Some(next) = before.checked_add(fields.len()) else {
            return Err(NoMemory {});
        };
        before = next;
    }
    Ok(None)
}

fn copied_reference(alloc: Global, reference: &Reference) -> Result<Reference, NoMemory>
    ensures { IfOk result (λ made. made ≡ reference.now) }
{
    let variable = reference.variable.copied(alloc)?;
    let field = reference.field.copied(alloc)?;
    Ok(Reference { variable, field })
}

pub(crate) fn copied_range(alloc: Global, range: &Range) -> Result<Range, NoMemory>
    ensures { IfOk result (λ made. made ≡ range.now) }
{
    let variable = range.variable.copied(alloc)?;
    let relation = range.relation.copied(alloc)?;
    Ok(Range { variable, relation })
}

/// The refusal of a reference whose variable isn't bound, or has no such field.
fn unknown_name(alloc: Global, scope: &[Binding], reference: &Reference) -> Stop
    ensures { Refuses result (or_else (needs_some reference.now.variable (bound_as reference.now.variable scope.now)) (Some (no_such reference.now.field))) }
{
    match binding_of(scope, &reference.variable) {
        Some(_) => no_such_name(alloc, &reference.field),
        None => no_such_name(alloc, &reference.variable),
    }
}

/// A reference with its place. It is refused where its variable isn't bound, and then where the variable's relation has no such field.
pub(crate) fn bind_reference(
    alloc: Global,
    tables: &Tables,
    scope: &[Binding],
    reference: &Reference,
) -> Result<BoundReference, Stop>
    ensures names { Finds result (reference_names reference.now tables.now scope.now) }
    ensures written { IfOk result (λ bound. bound.reference ≡ reference.now) }
    ensures placed { IfOk result (λ bound. IsPlaced bound tables.now (variables_of scope.now)) }
{
    let Some(at) = located(tables, scope, reference)? else {
        return Err(unknown_name(alloc, scope, reference));
    };
    let reference = copied_reference(alloc, reference)?;
    Ok(BoundReference {
        reference,
        place: at.place,
        kind: at.kind,
    })
}

/// A range with its relation. It is refused where its variable is bound already, and then where the relation isn't there.
pub(crate) fn bind_range(
    alloc: Global,
    tables: &Tables,
    scope: &[Binding],
    range: &Range,
) -> Result<BoundRange, Stop>
    ensures names { Finds result (source_names range.now tables.now scope.now) }
    ensures written { IfOk result (λ bound. bound.range ≡ range.now) }
    ensures relation { IfOk result (λ bound. IsRangeOf bound (relation_named range.now.relation tables.now)) }
{
    if binding_of(scope, &range.variable).is_some() {
        return Err(existing_name(alloc, &range.variable));
    }
    let Some(relation) = tables.relation(&range.relation) else {
        return Err(no_such_name(alloc, &range.relation));
    };
    let range = copied_range(alloc, range)?;
    Ok(BoundRange {
        range,
        area: relation.area,
        width: relation.fields.len(),
    })
}
