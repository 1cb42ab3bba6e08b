// The tables that a view shows.
ghost use Rattle.std.specs.Prelude.{◌≡◌, IfOk, IfErr};
ghost use Rattle.line_view.specs.Knowledge.{Lines, IsInOrder, Agrees};
ghost use Rattle.sound_lines.specs.Contents.{AreTablesOf};
ghost use Rattle.sound_lines.specs.Reading.{StopsTables};

use crate::relations::read_relations;
use crate::versions::versions_of;
use catalog::{Catalog, read_catalog};
use line_view::{Never, Stop, View};
use rdb_meaning::Tables;
use std::alloc::Global;

/// The tables that a view shows: those of its catalog, with the rows of their relations. Where the view doesn't know a line or the keys of a logical area that are read next, the need is answered; where a line's bytes are no line of the catalog, no row of its relation, or don't go with the others, its Dbkey. The catalog is read first, and then the relations in the order of their names.
pub fn read_tables<V: View>(alloc: Global, view: &V) -> Result<Tables, Stop<Never>>
    ensures tables { IfOk result (λ tables. (all : Lines) → IsInOrder all → Agrees (V.knows view.now) all → AreTablesOf all tables) }
    ensures stop { IfErr result (λ stop. (all : Lines) → Agrees (V.knows view.now) all → StopsTables (V.knows view.now) all stop) }
{
    let Catalog { lines, tables } = read_catalog(alloc, view)?;
    let versions = versions_of(alloc, lines.as_slice())?;
    let relations = read_relations(alloc, view, &versions, &tables.relations)?;
    Ok(Tables {
        globals: tables.globals,
        relations,
        indexes: tables.indexes,
    })
}
