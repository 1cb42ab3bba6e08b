// The pairs of a row that is stored, changed or erased, in the indexes of its relation.
ghost use Rattle.std.specs.Prelude.{◌≡◌, Some};
ghost use Rattle.row_writes.specs.Changes.{row_before, row_behind, ChangesPair, ChangesPairs, row_stop_of};
ghost use Rattle.row_writes.specs.Areas.{PairKeeps, PairsKeep};

use crate::pairs::{add_pair, take_pair};
use crate::stop::{PairStop, RowRefusal, RowStop};
use crate::target::RowChange;
use catalog_lines::IndexLine;
use line_view::Stop;
use rdb_types::{Dbkey, Value};
use statement_view::Changed;
use std::alloc::Global;
use stored_rows::have_one_key;

// Where the key stays, so does the pair, and nothing is read or written.
fn move_pair(
    alloc: Global,
    view: &mut Changed<'_>,
    index: &IndexLine,
    was: &[Value],
    row: &[Value],
    at: Dbkey,
) -> Result<(), PairStop>
    ensures moves { ChangesPair view.old view.new index.now (Some was.now) (Some row.now) at result }
    ensures nodes { PairKeeps view.old view.new index.now (Some was.now) (Some row.now) at result }
    ensures known { view.new.base ≡ view.old.base }
{
    if have_one_key(index.fields.as_slice(), was, row) {
        return Ok(());
    }
    take_pair(alloc, view, index, was, at)?;
    add_pair(alloc, view, index, row, at)
}

fn change_pair(
    alloc: Global,
    view: &mut Changed<'_>,
    index: &IndexLine,
    change: RowChange<'_>,
    at: Dbkey,
) -> Result<(), PairStop>
    ensures changes { ChangesPair view.old view.new index.now (row_before change.entry) (row_behind change.entry) at result }
    ensures nodes { PairKeeps view.old view.new index.now (row_before change.entry) (row_behind change.entry) at result }
    ensures known { view.new.base ≡ view.old.base }
{
    match change {
        RowChange::Stored(row) => add_pair(alloc, view, index, row, at),
        RowChange::Changed { was, row } => move_pair(alloc, view, index, was, row, at),
        RowChange::Erased(was) => take_pair(alloc, view, index, was, at),
    }
}

fn row_stop(stop: PairStop, at: usize) -> RowStop
    ensures { result ≡ row_stop_of at stop }
{
    match stop {
        Stop::Missing(need) => Stop::Missing(need),
        Stop::Bad(key) => Stop::Bad(key),
        Stop::NoMemory => Stop::NoMemory,
        Stop::Own(refusal) => Stop::Own(RowRefusal::Pair { at, refusal }),
    }
}

/// Changes the pairs of a row whose line is written, one index after another.
pub(crate) fn change_pairs(
    alloc: Global,
    view: &mut Changed<'_>,
    indexes: &[IndexLine],
    change: RowChange<'_>,
    at: Dbkey,
) -> Result<(), RowStop>
    ensures changes { ChangesPairs view.old view.new indexes.now (row_before change.entry) (row_behind change.entry) at result }
    ensures nodes { PairsKeep view.old view.new indexes.now (row_before change.entry) (row_behind change.entry) at result }
    ensures known { view.new.base ≡ view.old.base }
{
    for (place, index) in indexes.iter().enumerate() {
        if let Err(stop) = change_pair(alloc, view, index, change, at) {
            return Err(row_stop(stop, place));
        }
    }
    Ok(())
}
