// A reader ends, and what only it wanted is used again.
ghost use Rattle.std.specs.Prelude.{◌≡◌};
ghost use Rattle.line_store.specs.Seats.{IsMember, IsReader, outside};
ghost use Rattle.line_store.specs.Calls.{Moves};
ghost use Rattle.disk_store.specs.Giving.{HasAllWanted};
ghost use Rattle.disk_store.specs.Seats.{stand_at};
ghost use Rattle.disk_store.specs.Shown.{DoesOn};

use disk_store::{Held, leave_reading};
use rdb_outside::Disk;
use rdb_types::Session;

/// A session ends its read-only transaction. Slots of the snapshot files are given back that nobody wants any more: those into which transactions pushed that have ended, and that each reader which goes on sees. The time grows as the slots in use.
pub fn end_reading<D: Disk>(disk: &D, held: &mut Held, s: Session)
    requires member { IsMember s.number }
    requires reader { IsReader (stand_at held.old.members s.number) }
    ensures comes { DoesOn s.number outside (Moves s.number outside) (D.view disk.now) held.old (D.view disk.now) held.new }

    // What is left in use somebody wants.
    ensures slots { HasAllWanted held.new }
    ensures tables { held.new.tables ≡ held.old.tables }
{
    leave_reading(disk, held, s);
    held.give_unwanted(s);
}
