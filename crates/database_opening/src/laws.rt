// What an opening begins with.
ghost use Rattle.std.specs.Prelude.{ℕ, List, IsTrue};
ghost use Rattle.rdb_outside.specs.Disk.{Pending};
ghost use Rattle.rdb_outside.specs.Moments.{Since};
ghost use Rattle.line_view.specs.Knowledge.{Lines};
ghost use Rattle.line_opening.specs.stable_lines.Journal.{Journal};
ghost use Rattle.line_opening.specs.stable_lines.Progress.{Progress};
ghost use Rattle.line_opening.specs.stable_lines.Facts.{Facts, StandsAs};
ghost use Rattle.line_opening.specs.stable_lines.History.{IsAt, StandsFrom};
ghost use Rattle.database_opening.specs.Start.{IsStart, beginning_with, history_with};

use rdb_outside::Disk;

/// What reads give of a disk whose transactions stopped anywhere is one of the images that an opening takes: it is kept, and stands for what was committed, or for that with the group in flight.
pub fn the_content_stands<D: Disk>(disk: &D)
    ensures { IsTrue (D.view disk.now).tells → (now : Progress) → Facts (Pending (D.view disk.now)) now
        → StandsAs now (D.view disk.now).content }
{}

/// The history of the states begins with that of the opening: from this moment on each image stands for it.
pub fn a_history_begins<D: Disk>(disk: &D)
    ensures { (classes : ℕ → ℕ) (lines : Lines) (journal : Journal) (start : _)
        → IsStart classes lines journal (D.view disk.now) start
        → IsAt (history_with classes lines) (beginning_with classes lines journal start)
        × Since (D.view disk.now) (D.view disk.now).moment (StandsFrom (history_with classes lines) 0) }
{}
