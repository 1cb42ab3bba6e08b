ghost use Rattle.std.specs.Prelude.{◌≡◌, OnOk, OnErr};
ghost use Rattle.rdb_checks.specs.rdb_meaning.Contents.{relation_named};
ghost use Rattle.rdb_checks.specs.rdb_meaning.Checks.{needs_some};
ghost use Rattle.rdb_checks.specs.rdb_meaning.Defining.{relation_names, with_relation, without_relation};
ghost use Rattle.rdb_checks.specs.Answers.{Finds};
ghost use Rattle.rdb_definitions.specs.Answers.{Defines};

use crate::areas::{area_of, new_relation_area};
use crate::fields::{check_fields_names, new_fields};
use crate::indexes::remove_indexes;
use ordered_entries::Entries;
use rdb_checks::{Relation, Stop, Tables, exists, no_such};
use rdb_types::{Chars, Copied, NoMemory};
use rdo_ast::syntax::FieldDefinition;
use std::alloc::Global;

fn check_relation_names(
    alloc: Global,
    tables: &Tables,
    name: &Chars,
    fields: &[FieldDefinition],
) -> Result<(), Stop>
    ensures { Finds result (relation_names name.now fields.now tables.now) }
{
    if tables.relation(name).is_some() {
        return exists(alloc, name);
    }
    check_fields_names(alloc, tables, fields)
}

/// DEFINE RELATION: an empty relation of a new logical area. It is refused where the name is that of a relation, and then, field by field, where two fields have one name or a global field isn't there.
pub fn define_relation(
    tables: &mut Tables,
    alloc: Global,
    name: &Chars,
    fields: &[FieldDefinition],
) -> Result<(), Stop>
    ensures { Defines result
        (relation_names name.now fields.now tables.old)
        tables.old
        tables.new
        (with_relation name.now fields.now tables.old) }
{
    check_relation_names(alloc, tables, name, fields)?;
    let area = new_relation_area(alloc, tables)?;
    let fields = new_fields(alloc, tables, fields)?;
    let relation = Relation {
        area,
        fields,
        rows: Entries::new(alloc),
    };
    let name = name.copied(alloc)?;
    tables.relations.put(name, relation)?;
    Ok(())
}

/// Refuses a relation that isn't there.
pub fn check_relation_exists(alloc: Global, tables: &Tables, name: &Chars) -> Result<(), Stop>
    ensures { Finds result (needs_some name.now (relation_named name.now tables.now)) }
{
    match tables.relation(name) {
        Some(_) => Ok(()),
        None => no_such(alloc, name),
    }
}

/// DELETE RELATION, behind the checks of its name and of reservations: the relation goes with its rows, its fields and its indexes.
pub fn delete_relation(tables: &mut Tables, alloc: Global, name: &Chars) -> Result<(), NoMemory>
    ensures ok { OnOk result (tables.new ≡ without_relation name.now tables.old) }
    ensures err { OnErr result (tables.new ≡ tables.old) }
{
    let area = area_of(tables, name);
    remove_indexes(&mut tables.indexes, alloc, area)?;
    let _ = tables.relations.remove(name);
    Ok(())
}
