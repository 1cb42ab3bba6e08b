//! Definitions and deletions.
ghost use Rattle.std.specs.Prelude.{◌≡◌, [], ◌∷◌, true, false, IfOk};
ghost use Rattle.std.specs.FinMap.Entries.{find};
ghost use Rattle.rdo_ast.specs.Views.{command_of};
ghost use Rattle.rdb_meaning.specs.Contents.{relation_named};
ghost use Rattle.rdb_types.specs.Order.{chars_order};
ghost use Rattle.rdb_meaning.specs.Checks.{or_else, needs_some, use_of, reservation_refusal};
ghost use Rattle.rdb_meaning.specs.Defining.{field_names, with_field, relation_names, with_relation, index_names, index_refusal, with_index, without_relation, without_index};
ghost use Rattle.rdb_meaning.specs.Meaning.{command_meaning, needs_read_write, reservations_of, index_uses};
ghost use Rattle.rdb_meaning.specs.Usual.{is_refusal_of_means};
ghost use Rattle.rdb_checks.specs.Answers.{Finds};
ghost use Rattle.rdb_definitions.specs.Answers.{Defines};
ghost use Rattle.rdb_tables.specs.Redefining.{is_definition, refusal_of, after_of, Redefines};

use crate::told::Told;
use rdb_checks::{
    Stop as CheckStop, check_change_reserved, check_index_reserved, no_such, reservations_of,
};
use rdb_definitions::{
    check_index_names, check_relation_exists, define_field, define_index, define_relation,
    delete_index, delete_relation,
};
use rdb_meaning::Tables;
use rdb_types::{Chars, Copied, FieldType, NoMemory, Word};
use rdo_ast::reply::{Reply, Standing};
use rdo_ast::syntax::{FieldDefinition, IndexDefinition, Statement};
use std::alloc::Global;

// A definition needs a read-write transaction.
fn check_writing(standing: &Standing) -> Result<(), CheckStop>
    ensures { Finds result (needs_read_write standing.now) }
{
    match standing {
        Standing::Closed => Err(CheckStop::Refused(Reply::NoTransaction)),
        Standing::ReadOnly => Err(CheckStop::Refused(Reply::ReadOnly)),
        Standing::ReadWrite { .. } => Ok(()),
    }
}

fn new_field(
    tables: &mut Tables,
    alloc: Global,
    standing: &Standing,
    name: &Chars,
    kind: &FieldType,
) -> Result<(), CheckStop>
    ensures { Defines result (or_else (needs_read_write standing.now) (field_names name.now tables.old)) tables.old tables.new (with_field name.now kind.now tables.old) }
{
    check_writing(standing)?;
    define_field(tables, alloc, name, kind)
}

fn new_relation(
    tables: &mut Tables,
    alloc: Global,
    standing: &Standing,
    name: &Chars,
    fields: &[FieldDefinition],
) -> Result<(), CheckStop>
    ensures { Defines result (or_else (needs_read_write standing.now) (relation_names name.now fields.now tables.old)) tables.old tables.new (with_relation name.now fields.now tables.old) }
{
    check_writing(standing)?;
    define_relation(tables, alloc, name, fields)
}

fn new_index(
    tables: &mut Tables,
    alloc: Global,
    standing: &Standing,
    definition: &IndexDefinition,
) -> Result<(), CheckStop>
    ensures { Defines result
        (or_else (needs_read_write standing.now) (or_else (index_names definition.now tables.old)
        (or_else (reservation_refusal (reservations_of standing.now) (use_of true definition.now.relation ∷ [])) (index_refusal definition.now tables.old))))
        tables.old tables.new (with_index definition.now tables.old) }
{
    check_writing(standing)?;
    check_index_names(alloc, tables, definition)?;
    check_change_reserved(alloc, reservations_of(standing), &definition.relation)?;
    define_index(tables, alloc, definition)
}

fn no_relation(
    tables: &mut Tables,
    alloc: Global,
    standing: &Standing,
    name: &Chars,
) -> Result<(), CheckStop>
    ensures { Defines result
        (or_else (needs_read_write standing.now) (or_else (needs_some name.now (relation_named name.now tables.old))
        (reservation_refusal (reservations_of standing.now) (use_of true name.now ∷ []))))
        tables.old tables.new (without_relation name.now tables.old) }
{
    check_writing(standing)?;
    check_relation_exists(alloc, tables, name)?;
    check_change_reserved(alloc, reservations_of(standing), name)?;
    delete_relation(tables, alloc, name)?;
    Ok(())
}

fn check_no_index(
    alloc: Global,
    tables: &Tables,
    standing: &Standing,
    name: &Chars,
) -> Result<(), CheckStop>
    ensures { Finds result (or_else (needs_some name.now (find chars_order name.now tables.now.indexes))
        (reservation_refusal (reservations_of standing.now) (index_uses (find chars_order name.now tables.now.indexes) tables.now))) }
{
    match tables.indexes.find(name) {
        Some(index) => check_index_reserved(alloc, tables, reservations_of(standing), index),
        None => no_such(alloc, name),
    }
}

fn no_index(
    tables: &mut Tables,
    alloc: Global,
    standing: &Standing,
    name: &Chars,
) -> Result<(), CheckStop>
    ensures { Defines result
        (or_else (needs_read_write standing.now) (or_else (needs_some name.now (find chars_order name.now tables.old.indexes))
        (reservation_refusal (reservations_of standing.now) (index_uses (find chars_order name.now tables.old.indexes) tables.old))))
        tables.old tables.new (without_index name.now tables.old) }
{
    check_writing(standing)?;
    check_no_index(alloc, tables, standing, name)?;
    delete_index(tables, name);
    Ok(())
}

fn redefine(
    tables: &mut Tables,
    alloc: Global,
    standing: &Standing,
    statement: &Statement,
) -> Result<(), CheckStop>
    requires { is_definition (command_of statement.now) ≡ true }
    ensures { Defines result (refusal_of (command_of statement.now) standing.now tables.old) tables.old tables.new (after_of (command_of statement.now) tables.old) }
{
    match statement {
        Statement::DefineField(name, kind) => new_field(tables, alloc, standing, name, kind),
        Statement::DefineRelation(name, fields) => {
            new_relation(tables, alloc, standing, name, fields.as_slice())
        }
        Statement::DefineIndex(definition) => new_index(tables, alloc, standing, definition),
        Statement::DeleteRelation(name) => no_relation(tables, alloc, standing, name),
        Statement::DeleteIndex(name) => no_index(tables, alloc, standing, name),
        _ => unreachable!(),
    }
}

/// Does a definition or a deletion. After want of memory the tables are as before.
#[tactic(auto, using(crate::proofs::Redefining::redefined, crate::proofs::Redefining::refuses, crate::proofs::UsualReplies::usual_definition))]
pub fn definition(
    tables: &mut Tables,
    alloc: Global,
    word: &Word,
    standing: &Standing,
    statement: &Statement,
) -> Result<Told, NoMemory>
    requires { is_definition (command_of statement.now) ≡ true }
    ensures meaning { Redefines result (λ ks. command_meaning word.now (command_of statement.now) standing.now ks tables.old) tables.old tables.new }
    ensures usual { IfOk result (λ d. is_refusal_of_means d.reply ≡ false) }
{
    let after = standing.copied(alloc)?;
    match redefine(tables, alloc, standing, statement) {
        Ok(()) => Ok(Told::done(alloc, after)),
        Err(CheckStop::Refused(reply)) => Ok(Told::plain(alloc, reply, after)),
        Err(CheckStop::Memory) => Err(NoMemory {}),
    }
}
