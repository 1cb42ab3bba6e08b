// A row stored, changed or erased.
ghost use Rattle.std.specs.Prelude.{◌≡◌};
ghost use Rattle.row_writes.specs.Rows.{StoresRow, ChangesRow, ErasesRow, TellsNoRoom};
ghost use Rattle.row_writes.specs.Areas.{StoreKeeps, ChangeKeeps, EraseKeeps, StoreNodes, ChangeNodes, EraseNodes};

use crate::changes::change_pairs;
use crate::stop::{RowRefusal, RowStop};
use crate::target::{RowChange, TargetRelation};
use catalog_lines::IndexLine;
use line_view::{Need, Stop};
use rdb_types::{Dbkey, Value};
use statement_view::Changed;
use std::alloc::Global;
use stored_rows::row_image;

fn no_room(view: &Changed<'_>, area: u32, class: u16) -> RowStop
    ensures { TellsNoRoom view.now.base area class result }
{
    match view.lacks(area, class) {
        Some(room) => Stop::Missing(Need::Room(room)),
        None => Stop::Own(RowRefusal::NoRoom),
    }
}

/// Stores a row: its line is written in the first room that isn't written yet, and its pairs are put into the indexes. Gives its Dbkey. Behind an error the view is of no more use, but for what was known.
pub fn store_row(
    alloc: Global,
    view: &mut Changed<'_>,
    relation: &TargetRelation<'_>,
    row: &[Value],
) -> Result<Dbkey, RowStop>
    ensures stores { StoresRow view.old view.new relation.now row.now result }
    ensures areas { StoreKeeps view.old view.new relation.now result }
    ensures nodes { StoreNodes view.old view.new relation.now result }
    ensures known { view.new.base ≡ view.old.base }
{
    let stored = relation.stored;
    let image = match row_image(stored.version, stored.fields, row) {
        Ok(image) => image,
        Err(reason) => return Err(Stop::Own(RowRefusal::NoImage(reason))),
    };
    let Some(at) = view.first_room(stored.area, relation.class)? else {
        return Err(no_room(view, stored.area, relation.class));
    };
    view.put(at, Some(image))?;
    change_pairs(alloc, view, relation.indexes, RowChange::Stored(row), at)?;
    Ok(at)
}

/// Changes the row of a Dbkey, which was this one: its line is written, and its pairs are moved where their keys change. Behind an error the view is of no more use, but for what was known.
pub fn change_row(
    alloc: Global,
    view: &mut Changed<'_>,
    relation: &TargetRelation<'_>,
    at: Dbkey,
    was: &[Value],
    row: &[Value],
) -> Result<(), RowStop>
    ensures changes { ChangesRow view.old view.new relation.now at was.now row.now result }
    ensures areas { ChangeKeeps view.old view.new relation.now at was.now result }
    ensures nodes { ChangeNodes view.old view.new relation.now at was.now result }
    ensures known { view.new.base ≡ view.old.base }
{
    let image = match row_image(relation.stored.version, relation.stored.fields, row) {
        Ok(image) => image,
        Err(reason) => return Err(Stop::Own(RowRefusal::NoImage(reason))),
    };
    view.put(at, Some(image))?;
    change_pairs(
        alloc,
        view,
        relation.indexes,
        RowChange::Changed { was, row },
        at,
    )
}

/// Erases the row of a Dbkey, which was this one: its line, and its pairs in these indexes of its relation. Behind an error the view is of no more use, but for what was known.
pub fn erase_row(
    alloc: Global,
    view: &mut Changed<'_>,
    indexes: &[IndexLine],
    at: Dbkey,
    was: &[Value],
) -> Result<(), RowStop>
    ensures erases { ErasesRow view.old view.new indexes.now at was.now result }
    ensures areas { EraseKeeps view.old view.new indexes.now at was.now result }
    ensures nodes { EraseNodes view.old view.new indexes.now at was.now result }
    ensures known { view.new.base ≡ view.old.base }
{
    view.put(at, None)?;
    change_pairs(alloc, view, indexes, RowChange::Erased(was), at)
}
