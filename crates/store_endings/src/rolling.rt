// A transaction of which no page was written is undone, or dies.
ghost use Rattle.std.specs.Prelude.{◌≡◌, []};
ghost use Rattle.line_store.specs.Seats.{IsMember, IsWriting, rolling_back};
ghost use Rattle.line_store.specs.Sights.{RollsBack};
ghost use Rattle.disk_store.specs.Seats.{stand_at};
ghost use Rattle.disk_store.specs.Shown.{DoesOn};

use disk_store::{Held, MemberStage};
use rdb_outside::Disk;
use rdb_types::Session;

/// A session begins to undo its transaction: its lines are forgotten, and its header is to be closed.
pub fn roll_back<D: Disk>(_disk: &D, held: &mut Held, s: Session)
    requires member { IsMember s.number }
    requires seat { IsWriting (stand_at held.old.members s.number) }
    ensures does { DoesOn s.number (rolling_back []) (RollsBack s.number) (D.view _disk.now) held.old (D.view _disk.now) held.new }
    ensures tables { held.new.tables ≡ held.old.tables }
{
    held.set_stage(s, MemberStage::RollingBack);
}
