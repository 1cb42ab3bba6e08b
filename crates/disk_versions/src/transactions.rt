// What the steps of transactions keep of the versions.
ghost use Rattle.std.specs.Prelude.{◌≡◌, ◌≢◌, ◌≤◌, ℕ, true, List, length, slice_get, Some, None, IsTrue};
ghost use Rattle.rdb_types.specs.declared.keys.Dbkey.{Dbkey};
ghost use Rattle.rdb_outside.specs.Disk.{Pending};
ghost use Rattle.snapshot_file.specs.declared.entry.SnapEntry.{SnapEntry};
ghost use Rattle.aij_journal.specs.declared.part.GroupLine.{GroupLine};
ghost use Rattle.line_versions.specs.Files.{entries_in};
ghost use Rattle.line_versions.specs.Course.{Course};
ghost use Rattle.line_opening.specs.stable_lines.Slots.{Undo, line_at};
ghost use Rattle.line_opening.specs.stable_lines.Progress.{Open, Flight, Progress, begun, without, flying, landed, fallen, lines_with};
ghost use Rattle.line_opening.specs.stable_lines.Facts.{Facts};
ghost use Rattle.line_opening.specs.line_moves.Lines.{ChangedLines, ArePut};
ghost use Rattle.line_opening.specs.Undoing.{AreUndone};
ghost use Rattle.line_seat.specs.Seats.{secured};
ghost use Rattle.disk_versions.specs.Courses.{course_begun, course_undone, course_landed};
ghost use Rattle.disk_versions.specs.Versions.{AreBases, SeatVersions, VersionFacts};

use rdb_outside::Disk;

/// The steps of transactions keep the versions.
pub fn transactions_keep_the_versions<D: Disk>(disk: &D)
    requires tells { IsTrue (D.view disk.now).tells }

    // One draws the next number.
    ensures begins { (now : Progress) (limit : ℕ) (course : Course) (member : ℕ)
        → now.going member ≡ None
        → VersionFacts (D.view disk.now) now limit course
        → VersionFacts (D.view disk.now) (begun member now) limit (course_begun course) }

    // Its before-images stand.
    ensures secures { (now : Progress) (limit : ℕ) (course : Course)
        → (member : ℕ) (transaction : Open) (all : List Undo)
        → now.going member ≡ Some transaction → AreBases course all
        → VersionFacts (D.view disk.now) now limit course
        → VersionFacts (D.view disk.now) (secured member transaction all now) limit course }

    // Where its lines are undone, or no page was written, no line bears it.
    ensures nowhere { (now : Progress) (member : ℕ) (transaction : Open)
        → Facts (Pending (D.view disk.now)) now → now.going member ≡ Some transaction
        → AreUndone (D.view disk.now).content transaction 0
        → (key : Dbkey)
        → (line_at (D.view disk.now).content key).tsn.number ≢ transaction.tsn.number }

    // It has ended as undone, and nothing is followed that it pushed.
    ensures ends { (now : Progress) (limit : ℕ) (course : Course)
        → (member : ℕ) (transaction : Open)
        → Facts (Pending (D.view disk.now)) now → now.going member ≡ Some transaction
        → AreUndone (D.view disk.now).content transaction 0
        → ((file chain : ℕ) (entry : SnapEntry) → course.followed file chain ≡ true
        → entries_in (D.view disk.now).content file chain entry
        → entry.pusher.number ≢ transaction.tsn.number)
        → VersionFacts (D.view disk.now) now limit course
        → VersionFacts (D.view disk.now) (without member now) limit
        (course_undone transaction.tsn.number course) }

    // Its group takes off, or falls.
    ensures takes_off { (now : Progress) (limit : ℕ) (course : Course) (flight : Flight)
        → VersionFacts (D.view disk.now) now limit course
        → VersionFacts (D.view disk.now) (flying flight now) limit course }
    ensures falls { (now : Progress) (limit : ℕ) (course : Course)
        → VersionFacts (D.view disk.now) now limit course
        → VersionFacts (D.view disk.now) (fallen now) limit course }

    // It lands, with all its lines on their pages. No other open transaction has an entry of one of them.
    ensures lands { (now : Progress) (limit : ℕ) (course : Course) (flight : Flight)
        → (transaction : Open) (all : List Undo) (lines : ChangedLines)
        → Facts (Pending (D.view disk.now)) (flying flight now)
        → Facts (Pending (D.view disk.now)) (landed flight now)
        → now.going flight.member ≡ Some transaction
        → SeatVersions (D.view disk.now) course transaction.tsn all lines
        → ArePut (D.view disk.now).content lines (length lines)
        → ((other : ℕ) (theirs : Open) (i : ℕ) (undo : Undo) → other ≢ flight.member
        → now.going other ≡ Some theirs → slice_get theirs.entries i ≡ Some undo
        → (k : ℕ) (line : GroupLine) → slice_get flight.group.lines k ≡ Some line
        → line.key ≢ undo.key)
        → VersionFacts (D.view disk.now) now limit course
        → VersionFacts (D.view disk.now) (landed flight now) limit
        (course_landed transaction.tsn.number (line_at (D.view disk.now).content)
        (lines_with now flight) course) }
{}
