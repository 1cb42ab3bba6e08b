ghost use Rattle.std.specs.Prelude.{◌≡◌, ◌≤◌, ◌++◌, length, Some, None, IsSome, IfOk, IfErr, OnOk};
ghost use Rattle.rdb_meaning.specs.Contents.{relation_named};
ghost use Rattle.rdb_meaning.specs.Defining.{relation_names, with_relation};
ghost use Rattle.catalog.specs.Reading.{IsWhole};
ghost use Rattle.catalog_definitions.specs.Causes.{rooms_from, StopsDefining};
ghost use Rattle.catalog_definitions.specs.Written.{AreWritten, IsRelationDefinition, field_lines, lines_of_relation, relation_lines};
ghost use Rattle.catalog_definitions.specs.Leaving.{Turns};

use crate::stop::from_check;
use crate::writing::write_lines;
use catalog::Catalog;
use catalog_lines::{CatalogLine, FieldLine, RelationLine};
use line_view::{Stop, View, Writes};
use rdb_meaning::{Relation, Tables};
use rdb_types::{Chars, Copied, Field, Items, NoMemory};
use rdo_ast::reply::Reply;
use rdo_ast::syntax::FieldDefinition;
use row_sizes::class_of;
use std::alloc::Global;

fn add_field_lines(
    alloc: Global,
    lines: &mut Items<CatalogLine>,
    area: u32,
    fields: &[Field],
) -> Result<(), NoMemory>
    requires { length fields.now ≤ 50 }
    ensures { OnOk result (lines.new ≡ lines.old ++ field_lines area 0 fields.now) }
{
    for (position, field) in fields.iter().enumerate() {
        lines.push(CatalogLine::Field(FieldLine {
            relation: area,
            position: position as u16,
            field: field.copied(alloc)?,
        }))?;
    }
    Ok(())
}

fn lines_of_relation(
    alloc: Global,
    name: &Chars,
    relation: &Relation,
) -> Result<Items<CatalogLine>, NoMemory>
    requires { length relation.now.fields ≤ 50 }
    ensures { IfOk result (λ lines. lines ≡ lines_of_relation relation.now.area name.now relation.now.fields) }
{
    let fields = relation.fields.as_slice();
    let mut lines = Items::new(alloc);
    lines.push(CatalogLine::Relation(RelationLine {
        area: relation.area,
        class: class_of(fields),
        version: 1,
        name: name.copied(alloc)?,
    }))?;
    add_field_lines(alloc, &mut lines, relation.area, fields)?;
    Ok(lines)
}

fn relation_named<'a>(tables: &'a Tables, name: &Chars) -> &'a Relation
    requires { IsSome (relation_named name.now tables.now) }
    ensures { relation_named name.now tables.now ≡ Some result.now }
{
    match tables.relation(name) {
        Some(relation) => relation,
        None => unreachable!(),
    }
}

/// DEFINE RELATION in the catalog: the lines of a relation of a new logical area and of its fields. It is refused where the name is that of a relation, and then, field by field, where two fields have one name or a global field isn't there.
pub fn define_relation<V: View>(
    alloc: Global,
    view: &V,
    catalog: &Catalog,
    name: &Chars,
    fields: &[FieldDefinition],
) -> Result<Writes, Stop<Reply>>
    requires catalog { IsWhole catalog.now }
    requires definition { IsRelationDefinition name.now fields.now }
    ensures stop { IfErr result (StopsDefining (V.knows view.now) (relation_names name.now fields.now catalog.now.tables) (rooms_from 0 (relation_lines name.now fields.now catalog.now.tables))) }
    ensures taken { IfOk result (λ _. relation_names name.now fields.now catalog.now.tables ≡ None) }
    ensures lines { IfOk result (AreWritten (V.knows view.now) 0 (relation_lines name.now fields.now catalog.now.tables)) }
    ensures tables { IfOk result (Turns (V.knows view.now) catalog.now (with_relation name.now fields.now catalog.now.tables)) }
{
    let mut tables = catalog.tables.copied(alloc)?;
    match rdb_definitions::define_relation(&mut tables, alloc, name, fields) {
        Ok(()) => {}
        Err(stop) => return Err(from_check(stop)),
    }
    let lines = lines_of_relation(alloc, name, relation_named(&tables, name))?;
    write_lines(alloc, view, lines.as_slice())
}
