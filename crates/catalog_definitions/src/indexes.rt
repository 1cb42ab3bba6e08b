ghost use Rattle.std.specs.Prelude.{◌≡◌, Some, None, IsSome, IfOk, IfErr};
ghost use Rattle.std.specs.FinMap.Entries.{find};
ghost use Rattle.rdb_types.specs.declared.keys.Dbkey.{Dbkey};
ghost use Rattle.rdb_meaning.specs.Contents.{new_index_area};
ghost use Rattle.rdb_types.specs.Order.{chars_order};
ghost use Rattle.rdb_meaning.specs.Checks.{or_else};
ghost use Rattle.rdb_meaning.specs.Defining.{index_names, index_refusal, with_index};
ghost use Rattle.rdb_definitions.specs.Answers.{Defines};
ghost use Rattle.rdb_definitions.specs.NewIndex.{new_index};
ghost use Rattle.catalog_lines.specs.Lines.{IsAllowedLine};
ghost use Rattle.catalog.specs.Reading.{IsWhole};
ghost use Rattle.catalog_definitions.specs.Causes.{LacksRoom, StopsDefining};
ghost use Rattle.catalog_definitions.specs.Written.{IsIndexDefinition, IsIndexWritten, index_line, index_rooms};
ghost use Rattle.catalog_definitions.specs.Leaving.{Turns};

use crate::stop::from_check;
use crate::writing::{room_key, write_lines};
use catalog::Catalog;
use catalog_lines::{CatalogLine, IndexLine};
use line_view::{Room, Stop, View, Writes};
use rdb_definitions::check_index_names;
use rdb_meaning::{Index, Tables};
use rdb_types::{Chars, Copied, Dbkey, NoMemory};
use rdo_ast::reply::Reply;
use rdo_ast::syntax::IndexDefinition;
use std::alloc::Global;

/// The class of the lines of an index.
const NODE_CLASS: u16 = 440;

fn index_named<'a>(tables: &'a Tables, name: &Chars) -> &'a Index
    requires { IsSome (find chars_order name.now tables.now.indexes) }
    ensures { find chars_order name.now tables.now.indexes ≡ Some result.now }
{
    match tables.indexes.find(name) {
        Some(index) => index,
        None => unreachable!(),
    }
}

fn index_line(
    alloc: Global,
    name: &Chars,
    index: &Index,
    root: Dbkey,
) -> Result<CatalogLine, NoMemory>
    ensures { IfOk result (λ line. line ≡ index_line name.now index.now root) }
{
    Ok(CatalogLine::Index(IndexLine {
        area: index.area,
        relation: index.relation,
        unique: index.unique,
        root,
        fields: index.fields.copied(alloc)?,
        name: name.copied(alloc)?,
    }))
}

fn write_index<V: View>(
    alloc: Global,
    view: &V,
    name: &Chars,
    index: &Index,
) -> Result<Writes, Stop<Reply>>
    requires { (root : Dbkey) → IsAllowedLine (index_line name.now index.now root) }
    ensures line { IfOk result (IsIndexWritten (V.knows view.now) name.now index.now) }
    ensures stop { IfErr result (LacksRoom (V.knows view.now) (index_rooms index.now.area)) }
{
    let room = Room {
        area: index.area,
        class: NODE_CLASS,
        nth: 0,
    };
    let root = room_key(view, room)?;
    let line = index_line(alloc, name, index, root)?;
    write_lines(alloc, view, &[line])
}

fn add_index(
    tables: &mut Tables,
    alloc: Global,
    definition: &IndexDefinition,
) -> Result<(), rdb_checks::Stop>
    ensures { Defines result
        (or_else (index_names definition.now tables.old) (index_refusal definition.now tables.old))
        tables.old
        tables.new
        (with_index definition.now tables.old) }
{
    check_index_names(alloc, tables, definition)?;
    rdb_definitions::define_index(tables, alloc, definition)
}

/// DEFINE INDEX in the catalog: the line of an index of a new logical area, in which its root is the first room; the root itself isn't written. It is refused where the name is that of an index, where the relation isn't there, where, name by name, the relation has no such field or it is named twice, and where the longest possible key has more than 120 bytes.
pub fn define_index<V: View>(
    alloc: Global,
    view: &V,
    catalog: &Catalog,
    definition: &IndexDefinition,
) -> Result<Writes, Stop<Reply>>
    requires catalog { IsWhole catalog.now }
    requires definition { IsIndexDefinition definition.now }
    ensures stop { IfErr result (StopsDefining (V.knows view.now) (or_else (index_names definition.now catalog.now.tables) (index_refusal definition.now catalog.now.tables)) (index_rooms (new_index_area catalog.now.tables))) }
    ensures taken { IfOk result (λ _. or_else (index_names definition.now catalog.now.tables) (index_refusal definition.now catalog.now.tables) ≡ None) }
    ensures line { IfOk result (IsIndexWritten (V.knows view.now) definition.now.name (new_index definition.now catalog.now.tables)) }
    ensures tables { IfOk result (Turns (V.knows view.now) catalog.now (with_index definition.now catalog.now.tables)) }
{
    let mut tables = catalog.tables.copied(alloc)?;
    match add_index(&mut tables, alloc, definition) {
        Ok(()) => {}
        Err(stop) => return Err(from_check(stop)),
    }
    let index = index_named(&tables, &definition.name);
    write_index(alloc, view, &definition.name, index)
}
