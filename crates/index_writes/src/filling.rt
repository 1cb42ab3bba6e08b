// An index filled from rows, one after another.
ghost use Rattle.std.specs.Prelude.{◌≡◌, []};
ghost use Rattle.index_node.specs.Node.{IsNode};
ghost use Rattle.rdb_meaning.specs.Contents.{key_of};
ghost use Rattle.sorted_index_laws.specs.Tree.{pairs};
ghost use Rattle.sorted_index_laws.specs.Changes.{pair_of};
ghost use Rattle.sorted_index_laws.specs.Insertion.{IsNew};
ghost use Rattle.row_writes.specs.Areas.{KeepsToIndex};
ghost use Rattle.index_writes.specs.Filling.{IsDuplicate, TellsRow, AddsRow, AddsRows, Fills};
ghost use Rattle.index_writes.specs.Areas.{RowsKeep, FillKeeps};

use catalog_lines::IndexLine;
use index_node::{IndexNode, put_node};
use line_view::Stop;
use rdb_types::{Chars, Copied, Dbkey, Image, Items};
use rdo_ast::reply::Reply;
use relation_rows::StoredRow;
use row_writes::{PairRefusal, PairStop, add_pair};
use schema_writes::{SchemaRefusal, SchemaStop};
use statement_view::Changed;
use std::alloc::Global;

fn empty_leaf(alloc: Global) -> Image
    ensures { IsNode result (record { level = 0; entries = [] }) }
{
    let leaf = IndexNode {
        level: 0,
        entries: Items::new(alloc),
    };
    match put_node(&leaf) {
        Ok(image) => image,
        Err(_) => unreachable!(),
    }
}

fn duplicate(alloc: Global, name: &Chars) -> SchemaStop
    ensures { IsDuplicate name.now result }
{
    match name.copied(alloc) {
        Ok(name) => Stop::Own(SchemaRefusal::Refused(Reply::Duplicate(name))),
        Err(_) => Stop::NoMemory,
    }
}

// No row of a sound map has a key that is too long for the index.
fn row_stop(alloc: Global, stop: PairStop, name: &Chars, at: Dbkey) -> SchemaStop
    ensures { TellsRow name.now at stop result }
{
    match stop {
        Stop::Missing(need) => Stop::Missing(need),
        Stop::Bad(key) => Stop::Bad(key),
        Stop::NoMemory => Stop::NoMemory,
        Stop::Own(PairRefusal::Duplicate) => duplicate(alloc, name),
        Stop::Own(PairRefusal::LongKey) => Stop::Bad(at),
        Stop::Own(PairRefusal::Full) => Stop::Own(SchemaRefusal::Full),
    }
}

fn add_row(
    alloc: Global,
    view: &mut Changed<'_>,
    index: &IndexLine,
    row: &StoredRow,
) -> Result<(), SchemaStop>
    ensures adds { AddsRow view.old view.new index.now row.now result }
    ensures areas { KeepsToIndex view.old view.new index.now.root (λ level tree. IsNew (pair_of (key_of index.now.fields row.now.row) row.now.key) (pairs level tree)) result }
    ensures known { view.new.base ≡ view.old.base }
{
    match add_pair(alloc, view, index, row.row.as_slice(), row.key) {
        Ok(()) => Ok(()),
        Err(stop) => Err(row_stop(alloc, stop, &index.name, row.key)),
    }
}

fn add_rows(
    alloc: Global,
    view: &mut Changed<'_>,
    index: &IndexLine,
    rows: &[StoredRow],
) -> Result<(), SchemaStop>
    ensures adds { AddsRows view.old view.new index.now rows.now result }
    ensures areas { RowsKeep view.old view.new index.now rows.now result }
    ensures known { view.new.base ≡ view.old.base }
{
    for row in rows {
        add_row(alloc, view, index, row)?;
    }
    Ok(())
}

/// Writes the nodes of an index of these rows, which stand in the order of their Dbkeys. Its root becomes an empty leaf first.
pub(crate) fn fill(
    alloc: Global,
    view: &mut Changed<'_>,
    index: &IndexLine,
    rows: &[StoredRow],
) -> Result<(), SchemaStop>
    ensures fills { Fills view.old view.new index.now rows.now result }
    ensures areas { FillKeeps view.old view.new index.now rows.now result }
    ensures known { view.new.base ≡ view.old.base }
{
    view.put(index.root, Some(empty_leaf(alloc)))?;
    add_rows(alloc, view, index, rows)
}
