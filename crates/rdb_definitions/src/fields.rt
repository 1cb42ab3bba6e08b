ghost use Rattle.std.specs.Prelude.{◌≡◌, [], map, IfOk};
ghost use Rattle.rdb_checks.specs.rdb_meaning.Defining.{field_names, with_field, is_among, type_names, fields_names, type_of, new_field};
ghost use Rattle.rdb_checks.specs.Answers.{Finds};
ghost use Rattle.rdb_definitions.specs.Answers.{Defines};

use rdb_checks::{Stop, Tables, exists, no_such, same_name};
use rdb_types::{Chars, Copied, DataType, Field, FieldType, Fields, Items, NoMemory};
use rdo_ast::syntax::{DefinedType, FieldDefinition};
use std::alloc::Global;

/// DEFINE FIELD: a global field of this type. It is refused where the name is that of a global field.
pub fn define_field(
    tables: &mut Tables,
    alloc: Global,
    name: &Chars,
    kind: &FieldType,
) -> Result<(), Stop>
    ensures { Defines result
        (field_names name.now tables.old)
        tables.old
        tables.new
        (with_field name.now kind.now tables.old) }
{
    if tables.globals.find(name).is_some() {
        return exists(alloc, name);
    }
    let name = name.copied(alloc)?;
    tables.globals.put(name, *kind)?;
    Ok(())
}

fn is_named_among(name: &Chars, fields: &[FieldDefinition]) -> bool
    ensures { result ≡ is_among name.now (map (λ f. f.name) fields.now) }
{
    for field in fields {
        if same_name(name, &field.name) {
            return true;
        }
    }
    false
}

fn check_type_names(alloc: Global, tables: &Tables, kind: &DefinedType) -> Result<(), Stop>
    ensures { Finds result (type_names kind.now tables.now) }
{
    match kind {
        DefinedType::Own(_) => Ok(()),
        DefinedType::BasedOn(global) => match tables.globals.find(global) {
            Some(_) => Ok(()),
            None => no_such(alloc, global),
        },
    }
}

/// Refuses a field whose name an earlier one has, and then a global field that isn't there, field by field.
pub fn check_fields_names(
    alloc: Global,
    tables: &Tables,
    fields: &[FieldDefinition],
) -> Result<(), Stop>
    ensures { Finds result (fields_names [] fields.now tables.now) }
{
    for (place, field) in fields.iter().enumerate() {
        if is_named_among(&field.name, &fields[..place]) {
            return exists(alloc, &field.name);
        }
        check_type_names(alloc, tables, &field.kind)?;
    }
    Ok(())
}

fn type_of(tables: &Tables, kind: &DefinedType) -> FieldType
    ensures { result ≡ type_of kind.now tables.now }
{
    match kind {
        DefinedType::Own(own) => *own,
        DefinedType::BasedOn(global) => match tables.globals.find(global) {
            Some(based) => *based,
            None => FieldType {
                kind: DataType::Quadword,
                scale: 0,
                size: 0,
            },
        },
    }
}

fn new_field(
    alloc: Global,
    tables: &Tables,
    definition: &FieldDefinition,
) -> Result<Field, NoMemory>
    ensures { IfOk result (λ field. field ≡ new_field tables.now definition.now) }
{
    let name = definition.name.copied(alloc)?;
    Ok(Field {
        name,
        kind: type_of(tables, &definition.kind),
        version: 1,
    })
}

/// The fields of a relation that is defined so.
pub fn new_fields(
    alloc: Global,
    tables: &Tables,
    definitions: &[FieldDefinition],
) -> Result<Fields, NoMemory>
    ensures { IfOk result (λ fields. fields ≡ map (new_field tables.now) definitions.now) }
{
    let mut fields = Items::new(alloc);
    for definition in definitions {
        fields.push(new_field(alloc, tables, definition)?)?;
    }
    Ok(fields)
}
