// The entries of a transaction, made stable before its pages are written.
ghost use Rattle.std.specs.Prelude.{◌≡◌, ℕ, List, length, OnOk, IsErr, IsTrue};
ghost use Rattle.rdb_outside.specs.Causes.{Rose};
ghost use Rattle.rdb_outside.specs.Disk.{Pending, OnlyReads};
ghost use Rattle.line_moves.specs.stable_lines.Slots.{Undo};
ghost use Rattle.line_moves.specs.stable_lines.Progress.{Open, Progress};
ghost use Rattle.line_moves.specs.stable_lines.Facts.{Facts};
ghost use Rattle.line_seat.specs.Seats.{IsSecured, SeatFacts};

use line_moves::make_stable;
use rdb_outside::{Disk, Failed};

/// Makes the entries of a transaction stable: by a barrier where not all are, and else without a device call.
pub fn secure<D: Disk>(disk: &mut D, stable: u32, written: u32) -> Result<(), Failed>
    ensures reads { OnlyReads (D.view disk.old) (D.view disk.new) }
    ensures failed { IsErr result → Rose (D.view disk.old).faults (D.view disk.new).faults }

    // Whatever it answers, the facts stay.
    ensures keeps { IsTrue (D.view disk.old).tells → (now : Progress)
        → Facts (Pending (D.view disk.old)) now → Facts (Pending (D.view disk.new)) now }

    // The lines may be put on their pages.
    ensures secured { OnOk result (IsTrue (D.view disk.old).tells
        → (now : Progress) (member : ℕ) (transaction : Open) (all : List Undo)
        → Facts (Pending (D.view disk.old)) now
        → SeatFacts (D.view disk.old) now member transaction all stable → written ≡ length all
        → IsSecured (D.view disk.new) now member transaction all) }
{
    if stable >= written {
        return Ok(());
    }
    make_stable(disk)
}
