// The definition of an index.
ghost use Rattle.std.specs.Prelude.{◌≡◌, IsSome};
ghost use Rattle.rdb_meaning.specs.Contents.{relation_named};
ghost use Rattle.catalog.specs.Reading.{IsWhole};
ghost use Rattle.catalog_lines.specs.declared.line.IndexLine.{IndexLine as Line};
ghost use Rattle.catalog_lines.specs.declared.line.CatalogLine.TheVariants.{Index};
ghost use Rattle.catalog_definitions.specs.Written.{IsIndexDefinition};
ghost use Rattle.index_writes.specs.Reading.{IsLineWritten};
ghost use Rattle.index_writes.specs.Definition.{DefinesIndex, FillsFromRows};
ghost use Rattle.index_writes.specs.Areas.{FillFromKeeps, IndexKeeps};

use crate::filling::fill;
use crate::reading::{read_rows, written_index};
use line_view::Write;
use rdb_types::Chars;
use rdo_ast::syntax::IndexDefinition;
use schema_writes::{SchemaStop, known_stop, put_all};
use statement_view::Changed;
use std::alloc::Global;
use stored_schema::Schema;

// Writes the nodes of the index of which the one write is the line.
fn fill_from_rows(
    alloc: Global,
    view: &mut Changed<'_>,
    schema: &Schema,
    relation: &Chars,
    writes: &[Write],
) -> Result<(), SchemaStop>
    requires relation { IsSome (relation_named relation.now schema.now.tables) }
    requires line { (index : Line) × IsLineWritten (Index index) writes.now }
    ensures fills { FillsFromRows view.old view.new schema.now relation.now writes.now result }
    ensures areas { FillFromKeeps view.old view.new schema.now relation.now writes.now result }
    ensures known { view.new.base ≡ view.old.base }
{
    let rows = match read_rows(alloc, view, schema, relation) {
        Ok(rows) => rows,
        Err(stop) => return Err(stop.of_view()),
    };
    let index = written_index(alloc, writes)?;
    fill(alloc, view, &index, rows.as_slice())
}

/// DEFINE INDEX: the nodes of an index of the rows that are there are written in a new logical area, and its line of the catalog. It is refused as a duplicate where it is unique and two rows have one key; that shows only when the rows are known. Behind an error the view is of no more use, but for what was known.
pub fn define_index(
    alloc: Global,
    view: &mut Changed<'_>,
    schema: &Schema,
    definition: &IndexDefinition,
) -> Result<(), SchemaStop>
    requires catalog { IsWhole schema.now }
    requires definition { IsIndexDefinition definition.now }
    ensures defines { DefinesIndex view.old view.new schema.now definition.now result }
    ensures areas { IndexKeeps view.old view.new schema.now definition.now result }
    ensures known { view.new.base ≡ view.old.base }
{
    let writes = match catalog_definitions::define_index(
        alloc,
        view,
        schema.catalog(),
        definition,
    ) {
        Ok(writes) => writes,
        Err(stop) => return Err(known_stop(view, stop)),
    };
    fill_from_rows(alloc, view, schema, &definition.relation, writes.as_slice())?;
    put_all(view, writes.as_slice())?;
    Ok(())
}
