ghost use Rattle.std.specs.Prelude.{◌≡◌, IfOk};
ghost use Rattle.rdb_meaning.specs.Numbers.{is};
ghost use Rattle.rdb_meaning.specs.Evaluation.{read as read_of, read_bound as read_bound_of};
ghost use Rattle.rdo_arithmetic.specs.Answers.{Gives};
ghost use Rattle.rdb_evaluation.specs.Sorting.{value_read};

use rdb_meaning::{Binding, FieldAt, Tables, binding_of, field_of};
use rdb_types::{Chars, NoMemory, Scaled, Value};
use rdo_arithmetic::{Stop, absent, scaled};
use rdo_ast::syntax::Reference;
use std::alloc::Global;

fn read_bound(
    alloc: Global,
    tables: &Tables,
    binding: &Binding,
    name: &Chars,
) -> Result<Scaled, Stop>
    ensures { Gives result (is (read_bound_of name.now tables.now binding.now)) }
{
    let Some(relation) = tables.relation(&binding.relation) else {
        return Ok(absent());
    };
    let Some(FieldAt { place, field }) = field_of(relation.fields.as_slice(), name) else {
        return Ok(absent());
    };
    let Some(key) = binding.key else {
        return Ok(absent());
    };
    let Some(row) = relation.row(&key) else {
        return Ok(absent());
    };
    match row.get(place) {
        Some(value) => scaled(alloc, &field.kind, value),
        None => Ok(absent()),
    }
}

/// What a reference reads: the field of the variable's row as it is now, missing where there is none.
pub fn read(
    alloc: Global,
    tables: &Tables,
    scope: &[Binding],
    reference: &Reference,
) -> Result<Scaled, Stop>
    ensures { Gives result (is (read_of reference.now tables.now scope.now)) }
{
    match binding_of(scope, &reference.variable) {
        Some(binding) => read_bound(alloc, tables, binding, &reference.field),
        None => Ok(absent()),
    }
}

/// The value that a reference reads.
pub(crate) fn read_value(
    alloc: Global,
    tables: &Tables,
    scope: &[Binding],
    reference: &Reference,
) -> Result<Value, NoMemory>
    ensures { IfOk result (λ value. value ≡ value_read tables.now scope.now reference.now) }
{
    match read(alloc, tables, scope, reference) {
        Ok(Scaled { value, scale: _ }) => Ok(value),
        Err(_) => Err(NoMemory {}),
    }
}
