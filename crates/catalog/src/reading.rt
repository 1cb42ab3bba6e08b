ghost use Rattle.std.specs.Prelude.{◌≡◌, ◌≢◌, IfOk, IfErr};
ghost use Rattle.rdb_types.specs.declared.keys.Dbkey.{Dbkey};
ghost use Rattle.line_view.specs.Knowledge.{Knowledge, Lines, Agrees};
ghost use Rattle.catalog.specs.Reading.{IsBad, IsCatalogOf, IsWhole, IsKnown, ReadsAll, StopsAt, StopsReading, StopsCatalog};

use crate::directory::{PlacedLine, directory_of};
use crate::schema::{misfit, tables_of};
use catalog_lines::{CatalogLine, read_catalog_line};
use line_view::{Need, Never, Seen, Stop, View};
use rdb_definitions::Tables;
use rdb_types::{Dbkey, Items};
use std::alloc::Global;

/// The logical area of the catalog.
const CATALOG_AREA: u32 = 1;

/// A decoded catalog: its lines in the order of their Dbkeys, and the tables that they stand for, without rows.
#[derive(Drop)]
pub struct Catalog {
    pub lines: Items<PlacedLine>,
    pub tables: Tables,
}

fn read_line<V: View>(alloc: Global, view: &V, key: Dbkey) -> Result<CatalogLine, Stop<Never>>
    ensures line { IfOk result (IsKnown (V.knows view.now) key) }
    ensures stop { IfErr result (StopsAt (V.knows view.now) key) }
{
    match view.line(key) {
        Seen::Unknown => Err(Stop::Missing(Need::Line(key))),
        Seen::Absent => Err(Stop::Bad(key)),
        Seen::Present(image) => match read_catalog_line(alloc, image)? {
            Some(line) => Ok(line),
            None => Err(Stop::Bad(key)),
        },
    }
}

fn read_lines<V: View>(alloc: Global, view: &V) -> Result<Items<PlacedLine>, Stop<Never>>
    ensures lines { IfOk result (ReadsAll (V.knows view.now)) }
    ensures stop { IfErr result (StopsReading (V.knows view.now)) }
{
    let Some(keys) = view.area(CATALOG_AREA) else {
        return Err(Stop::Missing(Need::Area(CATALOG_AREA)));
    };
    let mut lines = Items::new(alloc);
    for key in keys {
        let line = read_line(alloc, view, *key)?;
        lines.push(PlacedLine { key: *key, line })?;
    }
    Ok(lines)
}

/// The catalog that a view shows. Where the view doesn't know the keys of the catalog's area, or a line of it, the need is answered; where a line's bytes are no line of the catalog, or a line doesn't go with the others, its Dbkey. The lines are read in the order of their Dbkeys, and compared once all are read.
pub fn read_catalog<V: View>(alloc: Global, view: &V) -> Result<Catalog, Stop<Never>>
    ensures catalog { IfOk result (λ catalog. (all : Lines) → Agrees (V.knows view.now) all → IsCatalogOf all catalog) }
    ensures whole { IfOk result IsWhole }
    ensures stop { IfErr result (StopsCatalog (V.knows view.now)) }
{
    let lines = read_lines(alloc, view)?;
    let Ok(directory) = directory_of(alloc, lines.as_slice()) else {
        return Err(Stop::NoMemory);
    };
    let Ok(tables) = tables_of(alloc, &directory, lines.as_slice()) else {
        return Err(Stop::NoMemory);
    };
    if let Some(key) = misfit(&directory, &tables, lines.as_slice()) {
        return Err(Stop::Bad(key));
    }
    Ok(Catalog { lines, tables })
}

/// A map has a catalog only where each of its lines is one of the catalog, and goes with the others.
pub fn bad_is_no_catalog()
    ensures { (known : Knowledge) (all : Lines) (key : Dbkey) (c : _) → Agrees known all → IsBad known key → IsCatalogOf all c → ⊥ }
{}

/// A map has one catalog at most.
pub fn one_catalog()
    ensures { (all : Lines) (a b : _) → IsCatalogOf all a → IsCatalogOf all b → a ≡ b }
{}
