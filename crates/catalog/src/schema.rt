// The tables that the lines stand for, and which lines don't go with the others.
ghost use Rattle.std.specs.Prelude.{◌≡◌, List, None, nat_eq, OnOk, IfOk};
ghost use Rattle.std.specs.List.{list_any, list_all};
ghost use Rattle.std.specs.FinMap.Entries.{find};
ghost use Rattle.rdb_definitions.specs.rdb_meaning.Contents.{relation_named, fields_of as fields_of_relation};
ghost use Rattle.rdb_types.specs.Order.{chars_order};
ghost use Rattle.rdb_definitions.specs.rdb_meaning.Execution.{area_of};
ghost use Rattle.catalog.specs.Directory.{directory};
ghost use Rattle.catalog.specs.Schema.{fields_from, relation_fields, with_thing, tables_from, differ, same_field, index_area, has_field, relation_stands, global_stands, field_stands, index_stands, stands, misfit_from, misfit as misfit_of};
ghost use Rattle.catalog.specs.Differences.{Differ};
ghost use Rattle.catalog.specs.declared.directory.PlacedLine.{PlacedLine};
ghost use Rattle.rdb_definitions.specs.rdb_meaning.Contents.{no_tables};

use crate::directory::{Directory, PlacedLine};
use catalog_lines::{CatalogLine, FieldLine, GlobalLine, IndexLine, RelationLine};
use ordered_entries::Entries;
use rdb_definitions::{Index, Relation, Tables, same_name};
use rdb_types::{Chars, Copied, Dbkey, Field, Fields, NoMemory};
use std::alloc::Global;

/// A relation has from 1 to so many fields.
const MAX_FIELDS: u16 = 50;

fn fields_from(
    alloc: Global,
    directory: &Directory,
    relation: u32,
    limit: u16,
) -> Result<Fields, NoMemory>
    ensures { IfOk result (λ fields. fields ≡ fields_from limit relation 0 directory.now.fields) }
{
    let mut fields = Fields::new(alloc);
    for position in 0..limit {
        let Some(found) = directory.field(relation, position) else {
            return Ok(fields);
        };
        fields.push(found.field.copied(alloc)?)?;
    }
    Ok(fields)
}

#[tactic(auto, unfolding(crate::specs::Schema::relation_fields))]
fn relation_fields(alloc: Global, directory: &Directory, relation: u32) -> Result<Fields, NoMemory>
    ensures { IfOk result (λ fields. fields ≡ relation_fields relation directory.now) }
{
    fields_from(alloc, directory, relation, MAX_FIELDS)
}

fn add_thing(
    alloc: Global,
    directory: &Directory,
    line: &CatalogLine,
    tables: &mut Tables,
) -> Result<(), NoMemory>
    ensures { OnOk result (tables.new ≡ with_thing directory.now line.now tables.old) }
{
    match line {
        CatalogLine::Relation(line) => {
            let relation = Relation {
                area: line.area,
                fields: relation_fields(alloc, directory, line.area)?,
                rows: Entries::new(alloc),
            };
            tables.relations.put(line.name.copied(alloc)?, relation)
        }
        CatalogLine::Global(line) => tables.globals.put(line.name.copied(alloc)?, line.kind),
        CatalogLine::Field(_) => Ok(()),
        CatalogLine::Index(line) => {
            let index = Index {
                area: line.area,
                relation: line.relation,
                unique: line.unique,
                fields: line.fields.copied(alloc)?,
            };
            tables.indexes.put(line.name.copied(alloc)?, index)
        }
    }
}

/// The tables that lines stand for, without rows.
pub(crate) fn tables_of(
    alloc: Global,
    directory: &Directory,
    lines: &[PlacedLine],
) -> Result<Tables, NoMemory>
    ensures { IfOk result (λ tables. tables ≡ tables_from directory.now no_tables lines.now) }
{
    let mut tables = Tables {
        globals: Entries::new(alloc),
        relations: Entries::new(alloc),
        indexes: Entries::new(alloc),
    };
    for line in lines {
        add_thing(alloc, directory, &line.line, &mut tables)?;
    }
    Ok(tables)
}

fn is_named_among(field: &Field, others: &[Field]) -> bool
    ensures { result ≡ list_any (same_field field.now) others.now }
{
    for other in others {
        if same_name(&field.name, &other.name) {
            return true;
        }
    }
    false
}

fn fields_differ(fields: &[Field]) -> bool
    ensures { result ≡ differ same_field fields.now }
{
    let mut left = fields;
    while let [field, others @ ..] = left {
        if is_named_among(field, others) {
            return false;
        }
        left = others;
    }
    true
}

fn is_among(position: u16, others: &[u16]) -> bool
    ensures { result ≡ list_any (nat_eq position) others.now }
{
    others.iter().any(|other| position == *other)
}

fn positions_differ(positions: &[u16]) -> bool
    ensures { result ≡ differ nat_eq positions.now }
{
    let mut left = positions;
    while let [position, others @ ..] = left {
        if is_among(*position, others) {
            return false;
        }
        left = others;
    }
    true
}

/// The logical area of a relation, 0 where it isn't there.
pub(crate) fn area_named(tables: &Tables, name: &Chars) -> u32
    ensures { result ≡ area_of (relation_named name.now tables.now) }
{
    match tables.relation(name) {
        Some(relation) => relation.area,
        None => 0,
    }
}

fn fields_named<'a>(tables: &'a Tables, name: &Chars) -> &'a [Field]
    ensures { result.now ≡ fields_of_relation (relation_named name.now tables.now) }
{
    match tables.relation(name) {
        Some(relation) => relation.fields.as_slice(),
        None => &[],
    }
}

fn index_area_named(tables: &Tables, name: &Chars) -> u32
    ensures { result ≡ index_area (find chars_order name.now tables.now.indexes) }
{
    match tables.indexes.find(name) {
        Some(index) => index.area,
        None => 0,
    }
}

fn relation_stands(directory: &Directory, tables: &Tables, key: Dbkey, line: &RelationLine) -> bool
    ensures { result ≡ relation_stands directory.now tables.now key line.now }
{
    area_named(tables, &line.name) == line.area
        && directory.is_of_area(key, line.area)
        && directory.has_field(line.area, 0)
        && !directory.has_field(line.area, MAX_FIELDS)
        && fields_differ(fields_named(tables, &line.name))
}

fn field_stands(directory: &Directory, key: Dbkey, line: &FieldLine) -> bool
    ensures { result ≡ field_stands directory.now key line.now }
{
    directory.is_of_field(key, line.relation, line.position)
        && directory.has_area(line.relation)
        && (line.position == 0 || directory.has_field(line.relation, line.position - 1))
}

fn have_fields(directory: &Directory, relation: u32, positions: &[u16]) -> bool
    ensures { result ≡ list_all (has_field relation directory.now) positions.now }
{
    positions
        .iter()
        .all(|position| directory.has_field(relation, *position))
}

fn index_stands(directory: &Directory, tables: &Tables, key: Dbkey, line: &IndexLine) -> bool
    ensures { result ≡ index_stands directory.now tables.now key line.now }
{
    index_area_named(tables, &line.name) == line.area
        && directory.is_of_area(key, line.area)
        && directory.has_area(line.relation)
        && positions_differ(line.fields.as_slice())
        && have_fields(directory, line.relation, line.fields.as_slice())
        && line.root.area == line.area
}

fn stands(directory: &Directory, tables: &Tables, key: Dbkey, line: &CatalogLine) -> bool
    ensures { result ≡ stands directory.now tables.now key line.now }
{
    match line {
        CatalogLine::Relation(line) => relation_stands(directory, tables, key, line),
        CatalogLine::Global(line) => directory.is_of_global(key, &line.name),
        CatalogLine::Field(line) => field_stands(directory, key, line),
        CatalogLine::Index(line) => index_stands(directory, tables, key, line),
    }
}

/// The first line that doesn't go with the others.
pub(crate) fn misfit(directory: &Directory, tables: &Tables, lines: &[PlacedLine]) -> Option<Dbkey>
    ensures { result ≡ misfit_from directory.now tables.now lines.now }
{
    for line in lines {
        if !stands(directory, tables, line.key, &line.line) {
            return Some(line.key);
        }
    }
    None
}

/// Where each line goes with the others, the relations differ in name and in area, and so do the indexes; global fields differ in name, and fields in their relation or position.
pub fn things_differ()
    ensures { (lines : List PlacedLine) → misfit_of lines ≡ None → Differ lines }
{}
