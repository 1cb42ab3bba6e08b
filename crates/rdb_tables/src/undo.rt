//! What a statement has changed, so that it can be undone.
ghost use Rattle.std.specs.Prelude.{◌≡◌, [], is_some, IsSome, IfOk, OnOk, OnErr};
ghost use Rattle.std.specs.Option.{option_copied};
ghost use Rattle.rdb_meaning.specs.Contents.{relation_named, row_at, with_row, with_rows, without_row};
ghost use Rattle.rdb_tables.specs.Undoing.{beginning, logged, saved_as as saved_relation, undone};

use crate::rows::{put_row, take_row, undo_row, undo_row_of};
use rdb_meaning::{Relation, Tables, same_name};
use rdb_types::{Chars, Copied, Dbkey, Items, NoMemory, Row};
use std::alloc::Global;

/// A row that is stored or changed, and what stood at its Dbkey before.
#[derive(Drop)]
pub struct Change {
    pub relation: Chars,
    pub key: Dbkey,
    pub before: Option<Row>,
}

/// A relation from which rows are erased, as it was at the start of the statement.
#[derive(Drop)]
pub struct Saved {
    pub relation: Chars,
    pub before: Relation,
}

/// The changes of a statement in their order, and the relations from which it erased rows: those are saved whole, since a row that is put back would want memory.
#[derive(Drop)]
pub struct Undo {
    pub changes: Items<Change>,
    pub saved: Items<Saved>,
}

impl Undo {
    /// Nothing to undo.
    pub fn new(alloc: Global) -> Undo
        ensures { result ≡ record { changes = []; saved = [] } }
    {
        Undo {
            changes: Items::new(alloc),
            saved: Items::new(alloc),
        }
    }
}

/// The saved relation of a name.
pub fn saved_as<'a>(saved: &'a [Saved], name: &Chars) -> Option<&'a Relation>
    ensures { option_copied result ≡ saved_relation name.now saved.now }
{
    for each in saved {
        if same_name(name, &each.relation) {
            return Some(&each.before);
        }
    }
    None
}

fn is_saved(saved: &[Saved], name: &Chars) -> bool
    ensures { result ≡ is_some (saved_relation name.now saved.now) }
{
    saved_as(saved, name).is_some()
}

fn copied_row(alloc: Global, row: Option<&Row>) -> Result<Option<Row>, NoMemory>
    ensures { IfOk result (λ made. made ≡ option_copied row.entry) }
{
    match row {
        Some(row) => Ok(Some(row.copied(alloc)?)),
        None => Ok(None),
    }
}

// Writes down what stands at a Dbkey, unless the relation is saved.
fn log(
    undo: &mut Undo,
    alloc: Global,
    tables: &Tables,
    name: &Chars,
    key: &Dbkey,
) -> Result<(), NoMemory>
    ensures ok { OnOk result (undo.new ≡ logged name.now key.now (row_at key.now (relation_named name.now tables.now)) undo.old) }
    ensures err { OnErr result (undo.new ≡ undo.old) }
{
    if is_saved(undo.saved.as_slice(), name) {
        return Ok(());
    }
    let before = match tables.relation(name) {
        Some(relation) => copied_row(alloc, relation.row(key))?,
        None => None,
    };
    let relation = name.copied(alloc)?;
    undo.changes.push(Change {
        relation,
        key: *key,
        before,
    })?;
    Ok(())
}

// A relation as it was before the changes.
fn first_version(
    alloc: Global,
    name: &Chars,
    relation: &Relation,
    changes: &[Change],
) -> Result<Relation, NoMemory>
    ensures { IfOk result
        (λ made. made ≡ with_rows (undone name.now changes.now relation.now.rows) relation.now) }
{
    let mut before = relation.copied(alloc)?;
    for place in (0..changes.len()).rev() {
        let change = &changes[place];
        if same_name(name, &change.relation) {
            let row = copied_row(alloc, change.before.as_ref())?;
            undo_row(&mut before.rows, &change.key, row);
        }
    }
    Ok(before)
}

// Saves a relation, if it is there and not saved.
fn save(undo: &mut Undo, alloc: Global, tables: &Tables, name: &Chars) -> Result<(), NoMemory>
    ensures kept { beginning tables.now undo.new ≡ beginning tables.now undo.old }
    ensures saved { OnOk result (IsSome (relation_named name.now tables.now) → IsSome (saved_relation name.now undo.new.saved)) }
{
    let _ordered = tables.relations.as_slice();
    if is_saved(undo.saved.as_slice(), name) {
        return Ok(());
    }
    let Some(relation) = tables.relation(name) else {
        return Ok(());
    };
    let before = first_version(alloc, name, relation, undo.changes.as_slice())?;
    let relation = name.copied(alloc)?;
    undo.saved.push(Saved { relation, before })?;
    Ok(())
}

/// Writes a row at a Dbkey of a relation.
pub fn write_row(
    undo: &mut Undo,
    alloc: Global,
    tables: &mut Tables,
    name: &Chars,
    key: Dbkey,
    row: Row,
) -> Result<(), NoMemory>
    ensures ok { OnOk result (tables.new ≡ with_row name.now key row tables.old) }
    ensures kept { beginning tables.new undo.new ≡ beginning tables.old undo.old }
{
    log(undo, alloc, tables, name, &key)?;
    put_row(tables, alloc, name, key, row)
}

/// Erases the row at a Dbkey of a relation.
pub fn erase_row(
    undo: &mut Undo,
    alloc: Global,
    tables: &mut Tables,
    name: &Chars,
    key: &Dbkey,
) -> Result<(), NoMemory>
    ensures ok { OnOk result (tables.new ≡ without_row name.now key.now tables.old) }
    ensures kept { beginning tables.new undo.new ≡ beginning tables.old undo.old }
{
    save(undo, alloc, tables, name)?;
    take_row(tables, alloc, name, key);
    Ok(())
}

/// Brings the tables back to the start of the statement, which takes no memory.
pub fn roll_back(tables: &mut Tables, alloc: Global, undo: Undo)
    ensures { tables.new ≡ beginning tables.old undo }
{
    let Undo {
        mut changes,
        mut saved,
    } = undo;
    while let Some(
        Change {
            relation,
            key,
            before,
        },
    ) = changes.pop()
    {
        undo_row_of(tables, alloc, &relation, &key, before);
    }
    while let Some(Saved { relation, before }) = saved.pop() {
        let _ordered = tables.relations.as_slice();
        tables.relations.exchange(&relation, before);
    }
}
