// The indexes of each relation, in the order of their logical areas, which is that of their definition.
ghost use Rattle.std.specs.Prelude.{◌≡◌, map, IfOk, OnOk};
ghost use Rattle.stored_schema.specs.Indexes.{path_of, both_of, with_index, indexed_in, indexes_in};

use access_paths::IndexPath;
use catalog::{LogicalArea, PlacedLine};
use catalog_lines::{CatalogLine, IndexLine};
use ordered_entries::Entries;
use rdb_types::{Copied, Items, NoMemory};
use std::alloc::Global;

/// Index lines under their logical areas.
pub(crate) type IndexLines = Entries<LogicalArea, IndexLine>;

/// The indexes of one relation, as rows are written into them and as selections read them.
#[derive(Drop)]
pub(crate) struct RelationIndexes {
    pub lines: Items<IndexLine>,
    pub paths: Items<IndexPath>,
}

fn copied_index(alloc: Global, line: &IndexLine) -> Result<IndexLine, NoMemory>
    ensures { IfOk result (λ copy. copy ≡ line.now) }
{
    let fields = line.fields.copied(alloc)?;
    let name = line.name.copied(alloc)?;
    Ok(IndexLine {
        area: line.area,
        relation: line.relation,
        unique: line.unique,
        root: line.root,
        fields,
        name,
    })
}

fn path_to(alloc: Global, line: &IndexLine) -> Result<IndexPath, NoMemory>
    ensures { IfOk result (λ path. path ≡ path_of line.now) }
{
    let fields = line.fields.copied(alloc)?;
    Ok(IndexPath {
        root: line.root,
        fields,
    })
}

fn add_index(
    alloc: Global,
    held: &mut Entries<LogicalArea, IndexLines>,
    line: &CatalogLine,
) -> Result<(), NoMemory>
    ensures { OnOk result (held.new ≡ with_index line.now held.old) }
{
    let CatalogLine::Index(index) = line else {
        return Ok(());
    };
    let relation = LogicalArea {
        number: index.relation,
    };
    let area = LogicalArea { number: index.area };
    let mut own = match held.remove(&relation) {
        Some(own) => own,
        None => Entries::new(alloc),
    };
    own.put(area, copied_index(alloc, index)?)?;
    held.put(relation, own)
}

fn indexed(
    alloc: Global,
    lines: &[PlacedLine],
) -> Result<Entries<LogicalArea, IndexLines>, NoMemory>
    ensures { IfOk result (λ held. held ≡ indexed_in lines.now) }
{
    let mut held = Entries::new(alloc);
    for line in lines {
        add_index(alloc, &mut held, &line.line)?;
    }
    Ok(held)
}

fn listed(alloc: Global, own: &IndexLines) -> Result<RelationIndexes, NoMemory>
    ensures { IfOk result (λ listed. listed ≡ both_of own.now) }
{
    let mut lines = Items::new(alloc);
    let mut paths = Items::new(alloc);
    for (_, line) in own.as_slice() {
        lines.push(copied_index(alloc, line)?)?;
        paths.push(path_to(alloc, line)?)?;
    }
    Ok(RelationIndexes { lines, paths })
}

/// The indexes of each relation that has some, under its logical area.
pub(crate) fn indexes_of(
    alloc: Global,
    lines: &[PlacedLine],
) -> Result<Entries<LogicalArea, RelationIndexes>, NoMemory>
    ensures { IfOk result (λ indexes. indexes ≡ indexes_in lines.now) }
{
    let held = indexed(alloc, lines)?;
    let mut indexes = Entries::new(alloc);
    for (area, own) in held.as_slice() {
        indexes.put(*area, listed(alloc, own)?)?;
    }
    Ok(indexes)
}
