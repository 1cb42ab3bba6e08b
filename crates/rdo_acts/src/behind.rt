// What comes behind the first need: rows that an index found, rooms for the rows that are left to be stored.
ghost use Rattle.std.specs.Prelude.{◌≡◌, IfOk};
ghost use Rattle.line_view.specs.Held.{knows};
ghost use Rattle.rdo_bind.specs.Acting.{act_of};
ghost use Rattle.rdo_acts.specs.Ahead.{AreAhead};
ghost use Rattle.rdo_acts.specs.Looking.{WantedSo};

use crate::ahead::Batch;
use crate::looking::{Sight, lines_ahead, rows_ahead};
use line_view::{Need, Room};
use rdb_types::{Dbkey, Items, NoMemory};
use rdo_bind::BoundAction;

fn lines_behind(
    sight: Sight<'_>,
    action: &BoundAction,
    first: Need,
) -> Result<Items<Need>, NoMemory>
    ensures ahead { IfOk result (AreAhead (knows sight.entry.known.now) first) }
    ensures wanted { IfOk result (WantedSo (knows sight.entry.known.now) sight.entry.sources.now.entries (act_of action.now) first) }
{
    let keys = lines_ahead(sight, action)?;
    let mut batch = Batch::new(sight.alloc, first);
    batch.add_lines(sight.known, &keys)?;
    Ok(batch.needs)
}

fn rooms_behind(
    sight: Sight<'_>,
    action: &BoundAction,
    room: Room,
    stored: &[Dbkey],
) -> Result<Items<Need>, NoMemory>
    ensures ahead { IfOk result (AreAhead (knows sight.entry.known.now) (Need.Room room)) }
    ensures wanted { IfOk result (WantedSo (knows sight.entry.known.now) sight.entry.sources.now.entries (act_of action.now) (Need.Room room)) }
{
    let more = rows_ahead(sight, action, stored, room.area);
    let mut batch = Batch::new(sight.alloc, Need::Room(room));
    batch.add_rooms(sight.known, room, more)?;
    Ok(batch.needs)
}

/// What comes behind the first need of an action that had stored these rows.
pub(crate) fn needs_behind(
    sight: Sight<'_>,
    action: &BoundAction,
    first: Need,
    stored: &[Dbkey],
) -> Result<Items<Need>, NoMemory>
    ensures ahead { IfOk result (AreAhead (knows sight.entry.known.now) first) }
    ensures wanted { IfOk result (WantedSo (knows sight.entry.known.now) sight.entry.sources.now.entries (act_of action.now) first) }
{
    match first {
        Need::Line(_) => lines_behind(sight, action, first),
        Need::Room(room) => rooms_behind(sight, action, room, stored),
        Need::Area(_) => Ok(Items::new(sight.alloc)),
    }
}
