// What the trait of stores asks of a sight.
ghost use Rattle.std.specs.Prelude.{◌≡◌, ℕ};
ghost use Rattle.line_store.specs.Shelves.{Shelf};
ghost use Rattle.line_store.specs.Sights.{Agrees, MayBeOpened, Stands};
ghost use Rattle.disk_store.specs.Seats.{steps_at};
ghost use Rattle.disk_store.specs.Shown.{Shown, sight_of};

use crate::Held;
use rdb_outside::Disk;

/// Memory knows where each session stands and how much is left to do for it, as on each shelf that is shown; and what a crash may leave stands on it, and can be opened.
pub fn the_sight_is_right<D: Disk>(disk: &D, held: &Held)
    ensures agrees { Agrees (sight_of (D.view disk.now) held.now) }
    ensures counts { (h : Shelf) → Shown (D.view disk.now) held.now h → (s : ℕ) → steps_at held.now.members s ≡ h.steps s }
    ensures stands { Stands (sight_of (D.view disk.now) held.now) }
    ensures opens { MayBeOpened (sight_of (D.view disk.now) held.now) }
{}
