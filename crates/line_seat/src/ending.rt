// A rollback.
ghost use Rattle.std.specs.Prelude.{ℕ, List, IsTrue};
ghost use Rattle.rdb_outside.specs.Disk.{Counts, Pending};
ghost use Rattle.line_moves.specs.stable_lines.Slots.{ruj_file, Undo};
ghost use Rattle.line_moves.specs.stable_lines.Progress.{Open, Progress, without};
ghost use Rattle.line_moves.specs.stable_lines.Facts.{Facts};
ghost use Rattle.line_moves.specs.Calls.{OnlyWrites};
ghost use Rattle.line_seat.specs.Seats.{SeatFacts};

use line_moves::close_header;
use rdb_outside::{Disk, Failed};

/// Ends a transaction that isn't committed. No page was written, so nothing is to be undone: its header is closed.
pub fn roll_back<D: Disk>(disk: &mut D, member: u32) -> Result<(), Failed>
    ensures counts { Counts (D.view disk.old) (D.view disk.new) result }
    ensures writes { OnlyWrites (ruj_file member) 0 (D.view disk.old) (D.view disk.new) }

    // Whatever it answers, nothing of the transaction is left.
    ensures undone { IsTrue (D.view disk.old).tells
        → (now : Progress) (transaction : Open) (all : List Undo) (stable : ℕ)
        → Facts (Pending (D.view disk.old)) now
        → SeatFacts (D.view disk.old) now member transaction all stable
        → Facts (Pending (D.view disk.new)) (without member now) }
{
    close_header(disk, member)
}
