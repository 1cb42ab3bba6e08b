// The lines that deletions erase.
ghost use Rattle.std.specs.Prelude.{◌≡◌, IfOk};
ghost use Rattle.std.specs.FinMap.Entries.{find};
ghost use Rattle.rdb_definitions.specs.rdb_meaning.Contents.{relation_named};
ghost use Rattle.rdb_types.specs.Order.{chars_order};
ghost use Rattle.rdb_definitions.specs.rdb_meaning.Checks.{needs_some};
ghost use Rattle.rdb_definitions.specs.rdb_meaning.Execution.{area_of};
ghost use Rattle.rdb_definitions.specs.rdb_checks.Answers.{Finds};
ghost use Rattle.catalog.specs.Deletions.{is_of_relation, is_index_named, keys_where};

use crate::Catalog;
use crate::directory::PlacedLine;
use crate::schema::area_named;
use catalog_lines::CatalogLine;
use rdb_definitions::{Stop, check_index_exists, check_relation_exists, same_name};
use rdb_types::{Chars, Keys, NoMemory};
use std::alloc::Global;

fn is_of_relation(area: u32, line: &CatalogLine) -> bool
    ensures { result ≡ is_of_relation area line.now }
{
    match line {
        CatalogLine::Relation(line) => line.area == area,
        CatalogLine::Global(_) => false,
        CatalogLine::Field(line) => line.relation == area,
        CatalogLine::Index(line) => line.relation == area,
    }
}

fn is_index_named(name: &Chars, line: &CatalogLine) -> bool
    ensures { result ≡ is_index_named name.now line.now }
{
    match line {
        CatalogLine::Index(line) => same_name(name, &line.name),
        CatalogLine::Relation(_) | CatalogLine::Global(_) | CatalogLine::Field(_) => false,
    }
}

fn relation_keys(alloc: Global, lines: &[PlacedLine], area: u32) -> Result<Keys, NoMemory>
    ensures { IfOk result (λ keys. keys ≡ keys_where (is_of_relation area) lines.now) }
{
    let mut keys = Keys::new(alloc);
    for line in lines {
        if is_of_relation(area, &line.line) {
            keys.push(line.key)?;
        }
    }
    Ok(keys)
}

fn index_keys(alloc: Global, lines: &[PlacedLine], name: &Chars) -> Result<Keys, NoMemory>
    ensures { IfOk result (λ keys. keys ≡ keys_where (is_index_named name.now) lines.now) }
{
    let mut keys = Keys::new(alloc);
    for line in lines {
        if is_index_named(name, &line.line) {
            keys.push(line.key)?;
        }
    }
    Ok(keys)
}

/// DELETE RELATION in the catalog: the Dbkeys of the lines that it erases, those of the relation, of its fields and of its indexes. It is refused where there is no such relation.
pub fn delete_relation(alloc: Global, catalog: &Catalog, name: &Chars) -> Result<Keys, Stop>
    ensures refusal { Finds result (needs_some name.now (relation_named name.now catalog.now.tables)) }
    ensures keys { IfOk result (λ keys. keys
        ≡ keys_where (is_of_relation (area_of (relation_named name.now catalog.now.tables))) catalog.now.lines) }
{
    check_relation_exists(alloc, &catalog.tables, name)?;
    let area = area_named(&catalog.tables, name);
    Ok(relation_keys(alloc, catalog.lines.as_slice(), area)?)
}

/// DELETE INDEX in the catalog: the Dbkey of the line that it erases. It is refused where there is no such index.
pub fn delete_index(alloc: Global, catalog: &Catalog, name: &Chars) -> Result<Keys, Stop>
    ensures refusal { Finds result (needs_some name.now (find chars_order name.now catalog.now.tables.indexes)) }
    ensures keys { IfOk result (λ keys. keys ≡ keys_where (is_index_named name.now) catalog.now.lines) }
{
    check_index_exists(alloc, &catalog.tables, name)?;
    Ok(index_keys(alloc, catalog.lines.as_slice(), name)?)
}
