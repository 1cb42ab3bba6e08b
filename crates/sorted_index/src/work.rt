// What an insertion writes and takes.
ghost use Rattle.std.specs.Prelude.{◌≡◌, ◌+◌, ◌<◌, None, Some, IfOk, IfErr, OnOk};
ghost use Rattle.line_view.specs.declared.need.Need.TheVariants.{Room as RoomNeed};
ghost use Rattle.line_view.specs.declared.stop.Stop.TheVariants.{Missing};
ghost use Rattle.sorted_index_laws.specs.Insertion.{room_at};

use crate::IndexStop;
use line_view::{Need, Room, Stop, View, Writes};
use rdb_types::Dbkey;

/// The logical area of an index, the lines of it that an insertion writes, and how many rooms it has taken for new nodes.
#[derive(Drop)]
pub(crate) struct Work {
    pub area: u32,
    pub writes: Writes,
    pub rooms: u32,
}

/// The next room for a node.
pub(crate) fn take_room<V: View>(view: &V, work: &mut Work) -> Result<Dbkey, IndexStop>
    requires { work.old.rooms < 1000 }
    ensures ok { IfOk result (λ at. ((V.knows view.now).room (room_at work.old.area work.old.rooms) ≡ Some at)) }
    ensures counted { OnOk result (work.new.rooms ≡ work.old.rooms + 1) }
    ensures area { work.new.area ≡ work.old.area }
    ensures writes { work.new.writes ≡ work.old.writes }
    ensures err { IfErr result (λ stop. (stop ≡ Missing (RoomNeed (room_at work.old.area work.old.rooms))) × ((V.knows view.now).room (room_at work.old.area work.old.rooms) ≡ None)) }
{
    let room = Room {
        area: work.area,
        class: 440,
        nth: work.rooms,
    };
    let Some(at) = view.room(room) else {
        return Err(Stop::Missing(Need::Room(room)));
    };
    work.rooms += 1;
    Ok(at)
}
