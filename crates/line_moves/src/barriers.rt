// Barriers.
ghost use Rattle.std.specs.Prelude.{OnOk, IsTrue};
ghost use Rattle.line_store.specs.rdb_outside.Disk.{Pending, Counts, IsStable, OnlyReads};
ghost use Rattle.stable_lines.specs.Progress.{Progress};
ghost use Rattle.stable_lines.specs.Facts.{Facts};

use line_store::{Disk, Failed};

/// Makes all that was written stable: behind it a crash leaves what reads give.
pub fn make_stable<D: Disk>(disk: &mut D) -> Result<(), Failed>
    ensures counts { Counts (D.view disk.old) (D.view disk.new) result }
    ensures reads { OnlyReads (D.view disk.old) (D.view disk.new) }
    ensures stable { OnOk result (IsTrue (D.view disk.old).tells → IsStable (D.view disk.new)) }

    // Whatever it answers, the facts stay.
    ensures keeps { IsTrue (D.view disk.old).tells → (now : Progress)
        → Facts (Pending (D.view disk.old)) now → Facts (Pending (D.view disk.new)) now }
{
    disk.barrier()
}
