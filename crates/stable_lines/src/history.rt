// What the images since a commit stand for, and what a backup rolled forward gives.
ghost use Rattle.std.specs.Prelude.{◌≡◌, ◌+◌, ℕ, None, Some};
ghost use Rattle.journal_reading.specs.rdb_outside.Disk.{Image, LeftNow, Pending};
ghost use Rattle.journal_reading.specs.rdb_outside.Moments.{Since};
ghost use Rattle.line_view.specs.Knowledge.{Lines};
ghost use Rattle.stable_lines.specs.Journal.{next_number};
ghost use Rattle.stable_lines.specs.Progress.{Flight, Progress, flying, landed};
ghost use Rattle.stable_lines.specs.Facts.{Facts};
ghost use Rattle.stable_lines.specs.History.{History, IsAt, StandsFrom, GoesOn, state_of, state_with, with_try, with_commit};
ghost use Rattle.stable_lines.specs.Rolling.{IsBehind, Rolls};

use journal_reading::Disk;

/// From the moment of a commit on, each image stands for a state reached from that commit on, or tried since.
pub fn images_since_a_commit<D: Disk>(disk: &D)
    ensures commit { (history : History) (now : Progress) → (at : IsAt history now)
        → Facts (Pending (D.view disk.now)) now
        → Since (D.view disk.now) (D.view disk.now).moment (StandsFrom history at.commits) }
    ensures goes_on { (moment k : ℕ) (old new : History)
        → Since (D.view disk.now) moment (StandsFrom old k) → GoesOn old new
        → Since (D.view disk.now) moment (StandsFrom new k) }

    // A group takes off, and lands.
    ensures takes_off { (history : History) (now : Progress) (flight : Flight) → (at : IsAt history now)
        → IsAt (with_try at.commits (state_with now flight) history) (flying flight now) }
    ensures lands { (history : History) (now : Progress) (flight : Flight) → IsAt history now
        → IsAt (with_commit (state_with now flight) history) (landed flight now) }

    // A transaction without changed lines commits, with nothing in flight or beside a group in flight.
    ensures empty { (history : History) (now : Progress) → now.flight ≡ None → IsAt history now
        → IsAt (with_commit (state_of now) history) now }
    ensures empty_beside { (history : History) (now : Progress) (flight : Flight) → now.flight ≡ Some flight
        → (at : IsAt history now)
        → IsAt (with_try (at.commits + 1) (state_with now flight) (with_commit (state_of now) history)) now }

    // Such a history goes on from the one before.
    ensures tried { (history : History) (commits : ℕ) (now : Progress) (flight : Flight)
        → GoesOn history (with_try commits (state_with now flight) history) }
    ensures reached { (history : History) (now : Progress)
        → GoesOn history (with_commit (state_of now) history) }
{}

/// A backup of the lines that were committed, rolled forward over the groups since, gives what is committed.
pub fn backups_roll_forward<D: Disk>(disk: &D)
    ensures begins { (now : Progress) (last : ℕ) → Facts (Pending (D.view disk.now)) now
        → last + 1 ≡ next_number now.journal → IsBehind now.lines last now }

    // It goes on doing so behind a commit.
    ensures lands { (now : Progress) (flight : Flight) → now.flight ≡ Some flight
        → Facts (Pending (D.view disk.now)) now → (base : Lines) (last : ℕ) → IsBehind base last now
        → IsBehind base last (landed flight now) }

    // Also over the groups of an image that a crash may leave.
    ensures image { (now : Progress) (base : Lines) (last : ℕ) (image : Image)
        → Facts (Pending (D.view disk.now)) now → now.former ≡ None → IsBehind base last now
        → LeftNow (D.view disk.now) image → Rolls base last image }
{}
