// Catalog lines laid on rooms.
ghost use Rattle.std.specs.Prelude.{◌≡◌, ◌≤◌, ◌+◌, ◌++◌, ◌∷◌, [], Some, length, IfOk, IfErr, OnOk};
ghost use Rattle.std.specs.List.{AllByRecursion};
ghost use Rattle.catalog_lines.specs.Lines.{IsAllowedLine};
ghost use Rattle.catalog_definitions.specs.Causes.{catalog_room, rooms_from, LacksRoom};
ghost use Rattle.catalog_definitions.specs.Written.{IsWritten, AreWritten};

use catalog_lines::{CatalogLine, put_catalog_line};
use line_view::{Need, Room, Stop, View, Write, Writes};
use rdb_types::Dbkey;
use rdo_ast::reply::Reply;
use std::alloc::Global;

/// The logical area of the catalog.
const CATALOG_AREA: u32 = 1;

/// The class of its lines.
const CATALOG_CLASS: u16 = 208;

/// The line that is a room.
pub(crate) fn room_key<V: View>(view: &V, room: Room) -> Result<Dbkey, Stop<Reply>>
    ensures key { IfOk result (λ key. (V.knows view.now).room room ≡ Some key) }
    ensures stop { IfErr result (LacksRoom (V.knows view.now) (room ∷ [])) }
{
    match view.room(room) {
        Some(key) => Ok(key),
        None => Err(Stop::Missing(Need::Room(room))),
    }
}

fn write_line<V: View>(view: &V, nth: u32, line: &CatalogLine) -> Result<Write, Stop<Reply>>
    requires { IsAllowedLine line.now }
    ensures room { IfOk result (λ write. (V.knows view.now).room (catalog_room nth) ≡ Some write.key) }
    ensures line { IfOk result (IsWritten line.now) }
    ensures stop { IfErr result (LacksRoom (V.knows view.now) (catalog_room nth ∷ [])) }
{
    let room = Room {
        area: CATALOG_AREA,
        class: CATALOG_CLASS,
        nth,
    };
    let key = room_key(view, room)?;
    Ok(Write {
        key,
        image: Some(put_catalog_line(line)),
    })
}

/// Writes each of these lines on a room of the catalog, in their order.
pub(crate) fn write_lines<V: View>(
    alloc: Global,
    view: &V,
    lines: &[CatalogLine],
) -> Result<Writes, Stop<Reply>>
    requires count { length lines.now ≤ 51 }
    requires allowed { AllByRecursion IsAllowedLine lines.now }
    ensures writes { IfOk result (AreWritten (V.knows view.now) 0 lines.now) }
    ensures stop { IfErr result (LacksRoom (V.knows view.now) (rooms_from 0 lines.now)) }
{
    let mut writes = Writes::new(alloc);
    for (nth, line) in lines.iter().enumerate() {
        writes.push(write_line(view, nth as u32, line)?)?;
    }
    Ok(writes)
}
