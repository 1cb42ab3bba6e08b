//! STORE.
ghost use Rattle.std.specs.Prelude.{◌≡◌, ◌++◌, [], ◌∷◌, true, Some, None, length, map, replicate, slice_get, IfOk};
ghost use Rattle.rdb_types.specs.declared.keys.Dbkey.{Dbkey};
ghost use Rattle.rdb_types.specs.declared.values.Value.TheVariants.{Missing};
ghost use Rattle.rdo_ast.specs.Views.{assignment_of};
ghost use Rattle.rdb_meaning.specs.Contents.{fields_of, relation_named};
ghost use Rattle.rdb_meaning.specs.Evaluation.{bind_source};
ghost use Rattle.rdb_meaning.specs.Execution.{assign, may_be_given, stored};
ghost use Rattle.rdb_tables.specs.Stages.{Runs, stage};
ghost use Rattle.rdb_tables.specs.Undoing.{beginning};
ghost use Rattle.rdb_tables.specs.Writing.{obstacle, Finds, Makes};

use crate::assign::{assign_all, missing_row};
use crate::image::is_too_long;
use crate::room::free_key;
use crate::stop::Stop;
use crate::undo::{saved_as, write_row};
use crate::unique::taken_by;
use crate::work::{Given, Work};
use rdb_meaning::{Binding, Tables, extended};
use rdb_types::{Chars, Dbkey, NoMemory, Row, Value};
use rdo_ast::syntax::{Assign, Range};
use sqlite_items::at;
use std::alloc::Global;

// The Dbkey of no row.
const NOWHERE: Dbkey = Dbkey {
    area: 0,
    page: 0,
    line: 0,
};

// The row that a STORE makes. The names were checked, so its relation is there.
fn new_row(
    alloc: Global,
    tables: &Tables,
    scope: &[Binding],
    range: &Range,
    assignments: &[Assign],
) -> Result<Row, Stop>
    ensures { Makes result
        (assign (map assignment_of assignments.now) (fields_of (relation_named range.now.relation tables.now)) tables.now
        (scope.now ++ bind_source range.now None ∷ []) (replicate (length (fields_of (relation_named range.now.relation tables.now))) Missing)) }
{
    let Some(relation) = tables.relation(&range.relation) else {
        return Err(Stop::Memory);
    };
    let fields = relation.fields.as_slice();
    let bound = extended(alloc, scope, range, None)?;
    let mut row = missing_row(alloc, fields)?;
    assign_all(
        alloc,
        tables,
        bound.as_slice(),
        fields,
        assignments,
        &mut row,
    )?;
    Ok(row)
}

/// Whether a row of the relation may be written at a Dbkey: its image is not too long, and no other row has its key of a unique index.
pub fn check_row(
    alloc: Global,
    tables: &Tables,
    name: &Chars,
    row: &[Value],
    own: &Dbkey,
) -> Result<(), Stop>
    ensures { Finds result (obstacle name.now row.now own.now tables.now) }
{
    let Some(relation) = tables.relation(name) else {
        return Err(Stop::Memory);
    };
    if is_too_long(relation.fields.as_slice(), row)? {
        return Err(Stop::TooLong);
    }
    match taken_by(alloc, tables, relation, row, own)? {
        Some(index) => Err(Stop::Duplicate(index)),
        None => Ok(()),
    }
}

// The Dbkey that the next row of the relation is given.
fn next_key(
    choices: &[Dbkey],
    tables: &Tables,
    name: &Chars,
    work: &Work,
) -> Result<Dbkey, NoMemory>
    ensures free { IfOk result (λ key. may_be_given name.now key (beginning tables.now work.now.undo) tables.now ≡ true) }
    ensures chosen { IfOk result
        (λ key. (chosen : Dbkey) → slice_get choices.now (length work.now.taken) ≡ Some chosen → may_be_given name.now chosen (beginning tables.now work.now.undo) tables.now ≡ true → key ≡ chosen) }
{
    let Some(relation) = tables.relation(name) else {
        return Err(NoMemory {});
    };
    let saved = saved_as(work.undo.saved.as_slice(), name);
    let choice = at(choices, work.taken.len()).copied();
    free_key(relation, saved, choice)
}

/// Stores a row. `kept`: what undoes the changes still leads back to the start of the statement.
pub fn store(
    given: &Given,
    tables: &mut Tables,
    scope: &[Binding],
    range: &Range,
    assignments: &[Assign],
    work: &mut Work,
) -> Result<(), Stop>
    ensures runs { Runs result given.now.choices.now
        (stored range.now (map assignment_of assignments.now) (beginning tables.old work.old.undo) scope.now)
        (stage tables.old work.old) (stage tables.new work.new) }
    ensures kept { beginning tables.new work.new.undo ≡ beginning tables.old work.old.undo }
{
    let row = new_row(given.alloc, tables, scope, range, assignments)?;
    let name = &range.relation;
    check_row(given.alloc, tables, name, row.as_slice(), &NOWHERE)?;
    let key = next_key(given.choices, tables, name, work)?;
    work.taken.push(key)?;
    write_row(&mut work.undo, given.alloc, tables, name, key, row)?;
    Ok(())
}
