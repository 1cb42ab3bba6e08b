// The locks of reservations, by tables.
ghost use Rattle.std.specs.Prelude.{◌≡◌, List, Ok, None, IfOk, IfSome};
ghost use Rattle.rdb_account.specs.Events.{need as need_of};
ghost use Rattle.rdb_account.specs.AskedFor.{area_node as node_of, reserved_mode as mode_of};
ghost use Rattle.lock_needs.specs.declared.need.Need.{Need as NeedValue};
ghost use Rattle.reserved_locks.specs.Reserved.{AreLocksOf, AreOnAreas};

use crate::LockNeeds;
use line_view::Need as LineNeed;
use lock_needs::Need;
use rdb_meaning::Tables;
use rdb_types::{Level, NoMemory, Node};
use rdo_ast::syntax::{Reservation, Share};
use std::alloc::Global;
use vms_queues::Mode;

/// Why the locks of reservations can't be named.
#[derive(Clone, Copy, Debug, PartialEq, Eq)]
pub enum Unnamed {
    /// What is known lacks this, which they ask for.
    Lacking(LineNeed),
    /// No tables with which what is known agrees have each relation.
    Unknown,
    NoMemory,
}

fn mode_for(share: &Share, writes: bool) -> Mode
    ensures { result ≡ mode_of share.now writes }
{
    match (share, writes) {
        (Share::Shared, true) => Mode::CW,
        (Share::Shared, false) => Mode::CR,
        (Share::Protected, true) => Mode::PW,
        (Share::Protected, false) => Mode::PR,
        (Share::Exclusive, _) => Mode::EX,
    }
}

fn lock_on(area: u32, reservation: &Reservation) -> Need
    ensures { result ≡ need_of (node_of area) (mode_of reservation.now.share reservation.now.writes) }
{
    Need {
        node: Node {
            level: Level::Area,
            area,
            at: 0,
            line: 0,
        },
        mode: mode_for(&reservation.share, reservation.writes),
    }
}

/// The locks of reservations, where each names a relation of these tables.
pub fn locks_in(
    alloc: Global,
    tables: &Tables,
    reserved: &[Reservation],
) -> Result<Option<LockNeeds>, NoMemory>
    ensures locks { IfOk result (λ found. IfSome found (AreLocksOf reserved.now tables.now)) }
    ensures areas { IfOk result (λ found. IfSome found AreOnAreas) }
    ensures unnamed { result ≡ Ok None → (locks : List NeedValue) → AreLocksOf reserved.now tables.now locks → ⊥ }
{
    let mut locks = LockNeeds::new(alloc);
    for reservation in reserved {
        match tables.relation(&reservation.relation) {
            Some(relation) => locks.push(lock_on(relation.area, reservation))?,
            None => return Ok(None),
        }
    }
    Ok(Some(locks))
}
