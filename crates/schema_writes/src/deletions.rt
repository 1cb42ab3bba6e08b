// Deletions of indexes and of relations.
ghost use Rattle.std.specs.Prelude.{◌≡◌, ◌++◌, IfOk, IfErr, OnOk};
ghost use Rattle.std.specs.FinMap.Entries.{find};
ghost use Rattle.rdb_types.specs.Order.{chars_order};
ghost use Rattle.rdb_meaning.specs.Contents.{relation_named};
ghost use Rattle.rdb_meaning.specs.Checks.{needs_some};
ghost use Rattle.rdb_meaning.specs.Defining.{without_index, without_relation};
ghost use Rattle.rdb_meaning.specs.Execution.{area_of};
ghost use Rattle.catalog.specs.Deletions.{is_index_named, is_of_relation};
ghost use Rattle.catalog_definitions.specs.Causes.{stop_of_check};
ghost use Rattle.statement_view.specs.Over.{knows_over};
ghost use Rattle.schema_writes.specs.Deletions.{AreNodes, AreNodesKnown, AreOwned, Deletes, ErasesNodes, LacksArea, nodes_at};
ghost use Rattle.schema_writes.specs.Areas.{WantsArea, IsAreaNamed, IsAreaOn, IsAreaOwned, SchemaKeeps, AreOfIndex, AreOfRelation};

use crate::writing::erase_all;
use catalog::{Catalog, PlacedLine};
use catalog_lines::CatalogLine;
use line_view::{Need, Stop, View};
use rdb_checks::Stop as CheckStop;
use rdb_meaning::{Tables, same_name};
use rdb_types::{Chars, Keys};
use rdo_ast::reply::Reply;
use statement_view::Changed;
use std::alloc::Global;

fn from_check(stop: CheckStop) -> Stop<Reply>
    ensures { result ≡ stop_of_check stop }
{
    match stop {
        CheckStop::Refused(reply) => Stop::Own(reply),
        CheckStop::Memory => Stop::NoMemory,
    }
}

fn area_named(tables: &Tables, name: &Chars) -> u32
    ensures { result ≡ area_of (relation_named name.now tables.now) }
{
    match tables.relation(name) {
        Some(relation) => relation.area,
        None => 0,
    }
}

fn keys_in(alloc: Global, view: &Changed<'_>, area: u32) -> Result<Keys, Stop<Reply>>
    ensures keys { IfOk result (λ keys. (knows_over view.now).area area ≡ Some keys) }
    ensures stop { IfErr result (LacksArea view.now.base) }
    ensures area { IfErr result (WantsArea (λ a. a ≡ area)) }
{
    let Some(known) = view.area(area) else {
        return Err(Stop::Missing(Need::Area(area)));
    };
    let mut keys = Keys::new(alloc);
    for key in known {
        keys.push(*key)?;
    }
    Ok(keys)
}

// The lines of the logical area of the index of a name.
fn index_nodes(
    alloc: Global,
    view: &Changed<'_>,
    lines: &[PlacedLine],
    name: &Chars,
) -> Result<Keys, Stop<Reply>>
    ensures keys { IfOk result (AreNodes (knows_over view.now) lines.now name.now) }
    ensures stop { IfErr result (LacksArea view.now.base) }
    ensures area { IfErr result (WantsArea (IsAreaNamed lines.now name.now)) }
{
    for line in lines {
        if let CatalogLine::Index(index) = &line.line {
            if same_name(name, &index.name) {
                return keys_in(alloc, view, index.area);
            }
        }
    }
    Ok(Keys::new(alloc))
}

/// DELETE INDEX: its line of the catalog and its nodes are erased. Behind an error the view is of no more use, but for what was known.
pub fn delete_index(
    alloc: Global,
    view: &mut Changed<'_>,
    catalog: &Catalog,
    name: &Chars,
) -> Result<(), Stop<Reply>>
    ensures deletes { Deletes view.old view.new catalog.now (λ t. needs_some name.now (find chars_order name.now t.indexes)) (without_index name.now) result }
    ensures nodes { OnOk result (ErasesNodes view.old view.new catalog.now (is_index_named name.now)) }
    ensures areas { SchemaKeeps view.old view.new catalog.now (AreOfIndex name.now) result }
    ensures known { view.new.base ≡ view.old.base }
{
    let lines = match catalog::delete_index(alloc, catalog, name) {
        Ok(lines) => lines,
        Err(stop) => return Err(from_check(stop)),
    };
    let nodes = match index_nodes(alloc, view, catalog.lines.as_slice(), name) {
        Ok(nodes) => nodes,
        Err(stop) => return Err(stop),
    };
    erase_all(view, lines.as_slice())?;
    erase_all(view, nodes.as_slice())?;
    Ok(())
}

// The lines of the logical area of an index of the relation, put behind others.
fn add_nodes(
    alloc: Global,
    view: &Changed<'_>,
    line: &CatalogLine,
    relation: u32,
    keys: &mut Keys,
) -> Result<(), Stop<Reply>>
    ensures known { OnOk result (AreNodesKnown (knows_over view.now) relation line.now) }
    ensures keys { OnOk result (keys.new ≡ keys.old ++ nodes_at (knows_over view.now) relation line.now) }
    ensures stop { IfErr result (LacksArea view.now.base) }
    ensures area { IfErr result (WantsArea (IsAreaOn relation line.now)) }
{
    let CatalogLine::Index(index) = line else {
        return Ok(());
    };
    if index.relation != relation {
        return Ok(());
    }
    keys.append(keys_in(alloc, view, index.area)?)?;
    Ok(())
}

// The lines of the logical area of a relation, and behind them those of its indexes' areas.
fn owned_keys(
    alloc: Global,
    view: &Changed<'_>,
    lines: &[PlacedLine],
    relation: u32,
) -> Result<Keys, Stop<Reply>>
    ensures keys { IfOk result (AreOwned (knows_over view.now) relation lines.now) }
    ensures stop { IfErr result (LacksArea view.now.base) }
    ensures area { IfErr result (WantsArea (IsAreaOwned relation lines.now)) }
{
    let mut keys = keys_in(alloc, view, relation)?;
    for line in lines {
        add_nodes(alloc, view, &line.line, relation, &mut keys)?;
    }
    Ok(keys)
}

/// DELETE RELATION: its lines of the catalog, those of its fields and of its indexes, all its rows and all nodes of its indexes are erased. Behind an error the view is of no more use, but for what was known.
pub fn delete_relation(
    alloc: Global,
    view: &mut Changed<'_>,
    catalog: &Catalog,
    name: &Chars,
) -> Result<(), Stop<Reply>>
    ensures deletes { Deletes view.old view.new catalog.now (λ t. needs_some name.now (relation_named name.now t)) (without_relation name.now) result }
    ensures nodes { OnOk result (ErasesNodes view.old view.new catalog.now (is_of_relation (area_of (relation_named name.now catalog.now.tables)))) }
    ensures areas { SchemaKeeps view.old view.new catalog.now (AreOfRelation catalog.now name.now) result }
    ensures known { view.new.base ≡ view.old.base }
{
    let lines = match catalog::delete_relation(alloc, catalog, name) {
        Ok(lines) => lines,
        Err(stop) => return Err(from_check(stop)),
    };
    let area = area_named(&catalog.tables, name);
    let owned = match owned_keys(alloc, view, catalog.lines.as_slice(), area) {
        Ok(owned) => owned,
        Err(stop) => return Err(stop),
    };
    erase_all(view, lines.as_slice())?;
    erase_all(view, owned.as_slice())?;
    Ok(())
}
