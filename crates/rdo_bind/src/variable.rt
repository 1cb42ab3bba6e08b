//! Variables that are named alone, as `E.*`, MODIFY and ERASE name them.
ghost use Rattle.std.specs.Prelude.{◌≡◌, map, option_map, IfOk};
ghost use Rattle.rdb_meaning.specs.Evaluation.{bound_as};
ghost use Rattle.rdb_meaning.specs.Checks.{needs_some};
ghost use Rattle.rdb_checks.specs.Answers.{Finds};
ghost use Rattle.rdo_values.specs.Rows.{variables_of};
ghost use Rattle.rdo_bind.specs.Variables.{kinds_of as kinds_in, place_of, located_variable, IsVariable};

use crate::reference::fields_of;
use crate::refusal::no_such_name;
use rdb_checks::Stop;
use rdb_meaning::{Binding, Tables, same_name};
use rdb_types::{Chars, Copied, Field, FieldType, Items, NoMemory};
use std::alloc::Global;

/// A variable, which of the bound variables it is, and where its values stand in the row of them all.
#[derive(Drop)]
pub struct BoundVariable {
    pub variable: Chars,
    /// Counted from 0, the outermost variable.
    pub number: usize,
    /// The place of its first value, counted from 0.
    pub place: usize,
    /// The types of its values.
    pub kinds: Items<FieldType>,
}

/// Which of the bound variables one is, where its values stand, and its fields.
#[derive(Clone, Copy)]
pub(crate) struct VariablePlace<'a> {
    pub number: usize,
    pub place: usize,
    pub fields: &'a [Field],
}

/// The bound variable of a name.
fn located<'a>(
    tables: &'a Tables,
    scope: &[Binding],
    variable: &Chars,
) -> Result<Option<VariablePlace<'a>>, NoMemory>
    ensures { IfOk result (λ at. option_map place_of at ≡ located_variable variable.now tables.now (variables_of scope.now)) }
{
    let mut before = 0usize;
    for (number, binding) in scope.iter().enumerate() {
        let fields = fields_of(tables, &binding.relation);
        if same_name(variable, &binding.variable) {
            return Ok(Some(VariablePlace {
                number,
                place: before,
                fields,
            }));
        }
        let Some(next) = before.checked_add(fields.len()) else {
            return Err(NoMemory {});
        };
        before = next;
    }
    Ok(None)
}

fn kinds_of(alloc: Global, fields: &[Field]) -> Result<Items<FieldType>, NoMemory>
    ensures { IfOk result (λ kinds. kinds ≡ kinds_in fields.now) }
{
    let mut kinds = Items::new(alloc);
    for field in fields {
        kinds.push(field.kind)?;
    }
    Ok(kinds)
}

/// A variable with its place. It is refused where it isn't bound.
pub(crate) fn bind_variable(
    alloc: Global,
    tables: &Tables,
    scope: &[Binding],
    variable: &Chars,
) -> Result<BoundVariable, Stop>
    ensures names { Finds result (needs_some variable.now (bound_as variable.now scope.now)) }
    ensures written { IfOk result (λ bound. bound.variable ≡ variable.now) }
    ensures placed { IfOk result (λ bound. IsVariable tables.now (variables_of scope.now) bound) }
{
    let Some(at) = located(tables, scope, variable)? else {
        return Err(no_such_name(alloc, variable));
    };
    let kinds = kinds_of(alloc, at.fields)?;
    let variable = variable.copied(alloc)?;
    Ok(BoundVariable {
        variable,
        number: at.number,
        place: at.place,
        kinds,
    })
}
