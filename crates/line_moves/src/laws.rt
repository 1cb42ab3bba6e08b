// What the device calls give together.
ghost use Rattle.std.specs.Prelude.{◌≡◌, ◌+◌, ◌<◌, ℕ, length, IsTrue};
ghost use Rattle.rdb_types.specs.declared.file.FileId.{FileId};
ghost use Rattle.rdb_types.specs.declared.keys.Tsn.{Tsn};
ghost use Rattle.line_store.specs.rdb_outside.Disk.{Pending, IsStable};
ghost use Rattle.line_store.specs.rdb_outside.Moments.{Since};
ghost use Rattle.stable_lines.specs.journal_scan.Standing.{what_stands};
ghost use Rattle.stable_lines.specs.new_database.Maker.{aij_file};
ghost use Rattle.stable_lines.specs.Journal.{commit_of};
ghost use Rattle.stable_lines.specs.Progress.{Flight, Progress, landed};
ghost use Rattle.stable_lines.specs.Facts.{Facts};
ghost use Rattle.stable_lines.specs.History.{History, StandsFrom, IsAt};
ghost use Rattle.line_moves.specs.Calls.{OnlyWrites};
ghost use Rattle.line_moves.specs.Changes.{IsCommitOf};

use line_store::Disk;

/// While the facts stay, so does what images since a commit stand for, at every moment of a call.
pub fn images_at_every_moment<D: Disk>(before: &D, after: &D)
    ensures { IsTrue (D.view before.now).tells
        → (file : FileId) (slot moment commits : ℕ) (history : History) (now : Progress)
        → OnlyWrites file slot (D.view before.now) (D.view after.now)
        → Facts (Pending (D.view before.now)) now → Facts (Pending (D.view after.now)) now
        → IsAt history now → commits < length history.reached
        → Since (D.view before.now) moment (StandsFrom history commits)
        → Since (D.view after.now) moment (StandsFrom history commits) }
{}

/// Behind the barrier that makes a commit slot stable, its group has landed.
pub fn a_commit_stands<D: Disk>(disk: &D)
    requires stable { IsStable (D.view disk.now) }
    ensures { (now : Progress) (flight : Flight) (slot number lines : ℕ) (tsn : Tsn)
        → Facts (Pending (D.view disk.now)) now → IsCommitOf now flight slot number tsn lines
        → what_stands ((D.view disk.now).content aij_file (slot + lines)) ≡ commit_of flight.group
        → Facts (Pending (D.view disk.now)) (landed flight now) }
{}
