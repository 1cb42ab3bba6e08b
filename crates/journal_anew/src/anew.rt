// A journal without groups.
ghost use Rattle.std.specs.Prelude.{◌≡◌, ◌≤◌, ◌^◌, ℕ, OnOk, IsErr, IsTrue};
ghost use Rattle.rdb_types.specs.declared.file.FileId.{FileId as File};
ghost use Rattle.aij_journal.specs.Header.{IsHeader};
ghost use Rattle.rdb_outside.specs.Causes.{Rose};
ghost use Rattle.rdb_outside.specs.Disk.{Counts, LeavesOnly, Pending};
ghost use Rattle.new_database.specs.Maker.{aij_file as aij_named};
ghost use Rattle.line_moves.specs.Calls.{OnlyWrites};
ghost use Rattle.stable_lines.specs.Progress.{Progress, begun_anew, settled};
ghost use Rattle.stable_lines.specs.Facts.{Facts, StandsAs};
ghost use Rattle.stable_lines.specs.Steps.{NamesNone};
ghost use Rattle.database_opening.specs.Others.{KeepsFile};
ghost use Rattle.journal_anew.specs.Anew.{MayBeginAnew};

use aij_journal::put_header;
use line_moves::{aij_file, make_stable};
use rdb_outside::{Disk, Failed};

// Writes the header of a journal.
fn write_header<D: Disk>(disk: &mut D, first: u64) -> Result<(), Failed>
    requires { first ≤ 2 ^ 62 }
    ensures counts { Counts (D.view disk.old) (D.view disk.new) result }
    ensures writes { OnlyWrites aij_named 0 (D.view disk.old) (D.view disk.new) }
    ensures header { OnOk result (IsTrue (D.view disk.old).tells
        → IsHeader ((D.view disk.new).content aij_named 0) first) }
    ensures keeps { IsTrue (D.view disk.old).tells → (now : Progress)
        → now.journal.first ≡ first
        → Facts (Pending (D.view disk.old)) now → Facts (Pending (D.view disk.new)) now }
{
    let mut slot = [0; 512];
    put_header(&mut slot, first);
    disk.write(aij_file(), 0, &slot)
}

/// Begins the after-image journal of a database in which nobody has a transaction anew: it has no group, and its first one will have this number. It makes a write and a barrier.
pub fn begin_anew<D: Disk>(disk: &mut D, first: u64) -> Result<(), Failed>
    requires { first ≤ 2 ^ 62 }
    ensures told { (D.view disk.new).tells ≡ (D.view disk.old).tells }
    ensures no_fewer { (D.view disk.old).faults ≤ (D.view disk.new).faults }
    ensures failed { IsErr result → Rose (D.view disk.old).faults (D.view disk.new).faults }

    // The same lines are committed, and the journal has no group.
    ensures begun { OnOk result (IsTrue (D.view disk.old).tells → (now : Progress)
        → MayBeginAnew (D.view disk.old) now first
        → Facts (Pending (D.view disk.new)) (settled (begun_anew first now))) }
    ensures closed { IsTrue (D.view disk.old).tells
        → NamesNone (Pending (D.view disk.old)) → NamesNone (Pending (D.view disk.new)) }

    // Whatever it answers, a crash at any moment of it leaves the same lines, with the old journal or the new one.
    ensures stands { IsTrue (D.view disk.old).tells → (now : Progress)
        → MayBeginAnew (D.view disk.old) now first
        → LeavesOnly (D.view disk.old) (D.view disk.new) (StandsAs (begun_anew first now)) }

    // It writes no other file.
    ensures others { (file : File) → (file ≡ aij_named → ⊥) → IsTrue (D.view disk.old).tells
        → KeepsFile file (D.view disk.old) (D.view disk.new) }
{
    write_header(disk, first)?;
    make_stable(disk)
}
