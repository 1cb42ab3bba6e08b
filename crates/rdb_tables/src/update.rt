//! MODIFY and ERASE.
ghost use Rattle.std.specs.Prelude.{◌≡◌, map};
ghost use Rattle.rdo_ast.specs.Views.{assignment_of};
ghost use Rattle.rdb_meaning.specs.Execution.{modified, erased};
ghost use Rattle.rdb_tables.specs.Stages.{Runs, stage};
ghost use Rattle.rdb_tables.specs.Undoing.{beginning};

use crate::assign::assign_all;
use crate::stop::Stop;
use crate::store::check_row;
use crate::undo::{erase_row, write_row};
use crate::work::{Given, Work};
use rdb_meaning::{Binding, Tables, binding_of};
use rdb_types::{Chars, Copied};
use rdo_ast::syntax::Assign;

/// Modifies the row of a variable as it is now; where it has none any more, nothing is done.
pub fn modify(
    given: &Given,
    tables: &mut Tables,
    scope: &[Binding],
    variable: &Chars,
    assignments: &[Assign],
    work: &mut Work,
) -> Result<(), Stop>
    ensures runs { Runs result given.now.choices.now (modified variable.now (map assignment_of assignments.now) scope.now)
        (stage tables.old work.old) (stage tables.new work.new) }
    ensures kept { beginning tables.new work.new.undo ≡ beginning tables.old work.old.undo }
{
    let Some(binding) = binding_of(scope, variable) else {
        return Ok(());
    };
    let name = &binding.relation;
    let Some(key) = binding.key else {
        return Ok(());
    };
    let Some(relation) = tables.relation(name) else {
        return Ok(());
    };
    let Some(before) = relation.row(&key) else {
        return Ok(());
    };
    let mut row = before.copied(given.alloc)?;
    let fields = relation.fields.as_slice();
    assign_all(given.alloc, tables, scope, fields, assignments, &mut row)?;
    check_row(given.alloc, tables, name, row.as_slice(), &key)?;
    write_row(&mut work.undo, given.alloc, tables, name, key, row)?;
    Ok(())
}

/// Erases the row of a variable; where it has none any more, nothing is done.
pub fn erase(
    given: &Given,
    tables: &mut Tables,
    scope: &[Binding],
    variable: &Chars,
    work: &mut Work,
) -> Result<(), Stop>
    ensures runs { Runs result given.now.choices.now (erased variable.now scope.now)
        (stage tables.old work.old) (stage tables.new work.new) }
    ensures kept { beginning tables.new work.new.undo ≡ beginning tables.old work.old.undo }
{
    let Some(binding) = binding_of(scope, variable) else {
        return Ok(());
    };
    let Some(key) = binding.key else {
        return Ok(());
    };
    erase_row(&mut work.undo, given.alloc, tables, &binding.relation, &key)?;
    Ok(())
}
