// What a new index is filled from: its line in the catalog, and the rows of its relation.
ghost use Rattle.std.specs.Prelude.{◌≡◌, Some, IfOk, IsSome};
ghost use Rattle.rdb_meaning.specs.Contents.{relation_named};
ghost use Rattle.catalog_lines.specs.declared.line.IndexLine.{IndexLine as Line};
ghost use Rattle.catalog_lines.specs.declared.line.CatalogLine.TheVariants.{Index};
ghost use Rattle.index_writes.specs.Reading.{IsLineWritten, ReadsRows};
ghost use Rattle.index_writes.specs.Areas.{ReadKeeps};

use catalog_lines::{CatalogLine, IndexLine, read_catalog_line};
use line_view::{Never, Stop, Write};
use rdb_types::{Chars, NoMemory};
use relation_rows::{Rows, rows};
use statement_view::Changed;
use std::alloc::Global;
use stored_schema::Schema;

fn index_of(line: Option<CatalogLine>) -> IndexLine
    requires { (index : Line) × (line ≡ Some (Index index)) }
    ensures { line ≡ Some (Index result) }
{
    match line {
        Some(CatalogLine::Index(index)) => index,
        _ => unreachable!(),
    }
}

/// The index of which the one write is the line.
pub(crate) fn written_index(alloc: Global, writes: &[Write]) -> Result<IndexLine, NoMemory>
    requires { (index : Line) × IsLineWritten (Index index) writes.now }
    ensures { IfOk result (λ index. IsLineWritten (Index index) writes.now) }
{
    let [write] = writes else {
        unreachable!();
    };
    let Some(image) = &write.image else {
        unreachable!();
    };
    let line = read_catalog_line(alloc, image.bytes())?;
    Ok(index_of(line))
}

/// The rows of a relation of the catalog, in the order of their Dbkeys.
pub(crate) fn read_rows(
    alloc: Global,
    view: &Changed<'_>,
    schema: &Schema,
    name: &Chars,
) -> Result<Rows, Stop<Never>>
    requires { IsSome (relation_named name.now schema.now.tables) }
    ensures reads { ReadsRows view.now schema.now name.now result }
    ensures areas { ReadKeeps view.now schema.now name.now result }
{
    let Some(target) = schema.target(name) else {
        unreachable!();
    };
    rows(alloc, view, &target.stored)
}
