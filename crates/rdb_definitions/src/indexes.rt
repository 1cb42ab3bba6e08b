ghost use Rattle.std.specs.Prelude.{◌≡◌, ◌==◌, [], not, map, filter, OnOk, OnErr, IfOk};
ghost use Rattle.std.specs.List.{list_any};
ghost use Rattle.std.specs.Ordering.{is_eq};
ghost use Rattle.std.specs.FinMap.Entries.{find};
ghost use Rattle.rdb_checks.specs.rdb_meaning.Contents.{relation_named, fields_of, new_index_area};
ghost use Rattle.rdb_types.specs.Order.{chars_order};
ghost use Rattle.rdb_checks.specs.rdb_meaning.Checks.{needs_some};
ghost use Rattle.rdb_checks.specs.rdb_meaning.Defining.{is_among, index_fields_names, index_names, index_refusal, with_index, without_index};
ghost use Rattle.rdb_checks.specs.Answers.{Finds};
ghost use Rattle.rdb_definitions.specs.Answers.{Defines};
ghost use Rattle.rdb_definitions.specs.NewIndex.{new_index};

use crate::areas::{area_of, new_index_area};
use crate::keys::{is_key_too_long, keys_repeat, positions_of};
use ordered_entries::Entries;
use rdb_checks::{FieldAt, Index, Stop, Tables, exists, field_of, no_such, same_name};
use rdb_types::{Chars, Copied, Field, Items, NoMemory};
use rdo_ast::reply::Reply;
use rdo_ast::syntax::IndexDefinition;
use std::alloc::Global;

fn is_among(name: &Chars, names: &[Chars]) -> bool
    ensures { result ≡ is_among name.now names.now }
{
    for other in names {
        if same_name(name, other) {
            return true;
        }
    }
    false
}

fn check_key_names(alloc: Global, fields: &[Field], names: &[Chars]) -> Result<(), Stop>
    ensures { Finds result (index_fields_names [] names.now fields.now) }
{
    for (place, name) in names.iter().enumerate() {
        let Some(FieldAt { place: _, field: _ }) = field_of(fields, name) else {
            return no_such(alloc, name);
        };
        if is_among(name, &names[..place]) {
            return exists(alloc, name);
        }
    }
    Ok(())
}

/// The names of DEFINE INDEX: it is refused where the name is that of an index, where the relation isn't there, and then, name by name, where the relation has no such field or it is named twice.
pub fn check_index_names(
    alloc: Global,
    tables: &Tables,
    definition: &IndexDefinition,
) -> Result<(), Stop>
    ensures { Finds result (index_names definition.now tables.now) }
{
    if tables.indexes.find(&definition.name).is_some() {
        return exists(alloc, &definition.name);
    }
    match tables.relation(&definition.relation) {
        Some(relation) => check_key_names(
            alloc,
            relation.fields.as_slice(),
            definition.fields.as_slice(),
        ),
        None => no_such(alloc, &definition.relation),
    }
}

fn fields_of<'a>(tables: &'a Tables, relation: &Chars) -> &'a [Field]
    ensures { result.now ≡ fields_of (relation_named relation.now tables.now) }
{
    match tables.relation(relation) {
        Some(relation) => relation.fields.as_slice(),
        None => &[],
    }
}

fn duplicate(alloc: Global, index: &Chars) -> Result<Index, Stop>
    ensures { Finds result (Some (Reply.Duplicate index.now)) }
{
    let index = index.copied(alloc)?;
    Err(Stop::Refused(Reply::Duplicate(index)))
}

fn new_index(alloc: Global, tables: &Tables, definition: &IndexDefinition) -> Result<Index, Stop>
    ensures refusal { Finds result (index_refusal definition.now tables.now) }
    ensures index { IfOk result (λ index. index ≡ new_index definition.now tables.now) }
{
    let names = definition.fields.as_slice();
    let fields = fields_of(tables, &definition.relation);
    if is_key_too_long(fields, names) {
        return Err(Stop::Refused(Reply::TooLong));
    }
    let positions = positions_of(alloc, fields, names)?;
    if definition.unique && keys_repeat(positions.as_slice(), tables.rows(&definition.relation)) {
        return duplicate(alloc, &definition.name);
    }
    Ok(Index {
        area: new_index_area(alloc, tables)?,
        relation: area_of(tables, &definition.relation),
        unique: definition.unique,
        fields: positions,
    })
}

/// DEFINE INDEX, behind the checks of its names and of reservations. It is refused where the longest possible key has more than 120 bytes, and then where a unique index would have two rows of one key.
pub fn define_index(
    tables: &mut Tables,
    alloc: Global,
    definition: &IndexDefinition,
) -> Result<(), Stop>
    ensures { Defines result
        (index_refusal definition.now tables.old)
        tables.old
        tables.new
        (with_index definition.now tables.old) }
{
    let index = new_index(alloc, tables, definition)?;
    let name = definition.name.copied(alloc)?;
    tables.indexes.put(name, index)?;
    Ok(())
}

/// Refuses an index that isn't there.
pub fn check_index_exists(alloc: Global, tables: &Tables, name: &Chars) -> Result<(), Stop>
    ensures { Finds result (needs_some name.now (find chars_order name.now tables.now.indexes)) }
{
    match tables.indexes.find(name) {
        Some(_) => Ok(()),
        None => no_such(alloc, name),
    }
}

/// DELETE INDEX, behind the checks of its name and of reservations.
pub fn delete_index(tables: &mut Tables, name: &Chars)
    ensures { tables.new ≡ without_index name.now tables.old }
{
    let _ = tables.indexes.remove(name);
}

fn names_of_indexes(
    alloc: Global,
    indexes: &[(Chars, Index)],
    area: u32,
) -> Result<Items<Chars>, NoMemory>
    ensures { IfOk result
        (λ names. names ≡ map (λ e. e.0) (filter (λ e. e.1.relation == area) indexes.now)) }
{
    let mut names = Items::new(alloc);
    for entry in indexes {
        if entry.1.relation == area {
            names.push(entry.0.copied(alloc)?)?;
        }
    }
    Ok(names)
}

fn remove_named(indexes: &mut Entries<Chars, Index>, names: &[Chars])
    ensures { indexes.new
        ≡ filter (λ e. not (list_any (λ n. is_eq (chars_order n e.0)) names.now)) indexes.old }
{
    for name in names {
        let _ = indexes.remove(name);
    }
}

/// Takes the indexes of the relation of this area away.
pub fn remove_indexes(
    indexes: &mut Entries<Chars, Index>,
    alloc: Global,
    area: u32,
) -> Result<(), NoMemory>
    ensures ok { OnOk result (indexes.new ≡ filter (λ e. not (e.1.relation == area)) indexes.old) }
    ensures err { OnErr result (indexes.new ≡ indexes.old) }
{
    let names = names_of_indexes(alloc, indexes.as_slice(), area)?;
    remove_named(indexes, names.as_slice());
    Ok(())
}
