//! Rows of a relation, changed in place.
ghost use Rattle.std.specs.Prelude.{◌≡◌, OnOk, OnErr};
ghost use Rattle.rdb_meaning.specs.Contents.{change_rows, with_row, without_row};
ghost use Rattle.rdb_tables.specs.Undoing.{undo_row as undone_row, IsInOrder};

use ordered_entries::Entries;
use rdb_meaning::{Relation, Tables};
use rdb_types::{Chars, Dbkey, Items, NoMemory, Row};
use std::alloc::Global;

// What stands in a relation's place while it is changed.
fn no_relation(alloc: Global) -> Relation {
    Relation {
        area: 0,
        fields: Items::new(alloc),
        rows: Entries::new(alloc),
    }
}

/// Puts a row at a Dbkey of a relation, if the relation is there.
pub fn put_row(
    tables: &mut Tables,
    alloc: Global,
    name: &Chars,
    key: Dbkey,
    row: Row,
) -> Result<(), NoMemory>
    ensures ok { OnOk result (tables.new ≡ with_row name.now key row tables.old) }
    ensures err { OnErr result (tables.new ≡ tables.old) }
    ensures ordered { IsInOrder name.now tables.old }
{
    // They are in order, so that a relation put back as it was changes nothing.
    let _ordered = tables.relations.as_slice();
    let Some(mut relation) = tables.relations.exchange(name, no_relation(alloc)) else {
        return Ok(());
    };
    let _rows = relation.rows.as_slice();
    let outcome = relation.rows.put(key, row);
    tables.relations.exchange(name, relation);
    outcome
}

/// Takes a row of a relation away, if it is there.
pub fn take_row(tables: &mut Tables, alloc: Global, name: &Chars, key: &Dbkey)
    ensures taken { tables.new ≡ without_row name.now key.now tables.old }
    ensures ordered { IsInOrder name.now tables.old }
{
    let _ordered = tables.relations.as_slice();
    let Some(mut relation) = tables.relations.exchange(name, no_relation(alloc)) else {
        return;
    };
    let _rows = relation.rows.as_slice();
    relation.rows.remove(key);
    tables.relations.exchange(name, relation);
}

/// Brings back what stood at a Dbkey among the rows: no row, or a row in the place of the one that is there.
pub fn undo_row(rows: &mut Entries<Dbkey, Row>, key: &Dbkey, before: Option<Row>)
    ensures { rows.new ≡ undone_row key.now before rows.old }
{
    match before {
        Some(row) => {
            rows.exchange(key, row);
        }
        None => {
            rows.remove(key);
        }
    }
}

/// The same for a row of a relation.
pub fn undo_row_of(
    tables: &mut Tables,
    alloc: Global,
    name: &Chars,
    key: &Dbkey,
    before: Option<Row>,
)
    ensures undone { tables.new ≡ change_rows name.now (undone_row key.now before) tables.old }
    ensures ordered { IsInOrder name.now tables.old }
{
    let _ordered = tables.relations.as_slice();
    let Some(mut relation) = tables.relations.exchange(name, no_relation(alloc)) else {
        return;
    };
    let _rows = relation.rows.as_slice();
    undo_row(&mut relation.rows, key, before);
    tables.relations.exchange(name, relation);
}
