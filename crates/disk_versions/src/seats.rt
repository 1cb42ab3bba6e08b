// The lines of a transaction that wait to be put on their pages.
ghost use Rattle.std.specs.Prelude.{◌≡◌, ◌≢◌, ◌-◌, ◌≤◌, ◌++◌, ◌∷◌, [], ℕ, Bool, true, false, List, slice_get, Some, IsTrue};
ghost use Rattle.rdb_types.specs.declared.file.FileId.{FileId};
ghost use Rattle.rdb_types.specs.declared.file.FileKind.TheVariants.{Snap};
ghost use Rattle.rdb_types.specs.declared.keys.Dbkey.{Dbkey};
ghost use Rattle.rdb_types.specs.declared.keys.Tsn.{Tsn};
ghost use Rattle.rdb_types.specs.declared.keys.Line.{Line};
ghost use Rattle.rdb_outside.specs.Disk.{OnlyReads};
ghost use Rattle.snapshot_file.specs.declared.entry.SnapEntry.{SnapEntry};
ghost use Rattle.line_view.specs.Knowledge.{Lines};
ghost use Rattle.line_versions.specs.Versions.{snap_of};
ghost use Rattle.line_versions.specs.Files.{entries_in, snap_file};
ghost use Rattle.line_versions.specs.Course.{Course, IsFirst, pushed};
ghost use Rattle.line_opening.specs.stable_lines.Slots.{Undo, line_at};
ghost use Rattle.line_opening.specs.stable_lines.Progress.{Progress};
ghost use Rattle.line_opening.specs.line_moves.Calls.{OnlyWrites};
ghost use Rattle.line_opening.specs.line_moves.Lines.{ChangedLines, HasLine};
ghost use Rattle.disk_versions.specs.Courses.{course_begun, course_given, course_landed, course_pushed, course_read, course_reading, course_undone};
ghost use Rattle.disk_versions.specs.Versions.{IsNoneOfThem, PutsIn, SeatVersions, VersionFacts};

use rdb_outside::Disk;

/// A first change of a line that was used: as it stands it was written to a slot that isn't followed, and its new line bears that chain.
pub fn a_line_is_pushed<D: Disk>(before: &D, after: &D)
    requires tells { IsTrue (D.view before.now).tells }
    ensures versions { (now : Progress) (limit : ℕ) (course : Course) (key : Dbkey) (line : Line)
        → 1 ≤ line.chain → line.chain ≤ limit → course.followed (snap_of key) line.chain ≡ false
        → OnlyWrites (snap_file (snap_of key)) (line.chain - 1) (D.view before.now) (D.view after.now)
        → entries_in (D.view after.now).content (snap_of key) line.chain
        (pushed key line.tsn (line_at (D.view before.now).content key))
        → course.going (line_at (D.view before.now).content key).tsn.number ≡ false
        → course.going line.tsn.number ≡ true
        → VersionFacts (D.view before.now) now limit course
        → VersionFacts (D.view after.now) now limit
        (course_pushed (snap_of key) line.chain course) }
    ensures seat { (now : Progress) (limit : ℕ) (course : Course) (key : Dbkey) (line : Line)
        → 1 ≤ line.chain → line.chain ≤ limit → course.followed (snap_of key) line.chain ≡ false
        → OnlyWrites (snap_file (snap_of key)) (line.chain - 1) (D.view before.now) (D.view after.now)
        → entries_in (D.view after.now).content (snap_of key) line.chain
        (pushed key line.tsn (line_at (D.view before.now).content key))
        → course.going (line_at (D.view before.now).content key).tsn.number ≡ false
        → course.going line.tsn.number ≡ true
        → VersionFacts (D.view before.now) now limit course
        → (tsn : Tsn) (all : List Undo) (lines more : ChangedLines)
        → PutsIn lines key line more → line.tsn ≡ tsn → IsNoneOfThem lines key
        → SeatVersions (D.view before.now) course tsn all lines
        → SeatVersions (D.view after.now) (course_pushed (snap_of key) line.chain course) tsn all more }
{}

/// What needs no push.
pub fn a_line_waits<D: Disk>(disk: &D)
    // The first change of a line that was never used.
    ensures first { (now : Progress) (limit : ℕ) (course : Course) (key : Dbkey) (line : Line)
        → (tsn : Tsn) (all : List Undo) (lines more : ChangedLines)
        → PutsIn lines key line more → line.tsn ≡ tsn → IsNoneOfThem lines key
        → course.going (line_at (D.view disk.now).content key).tsn.number ≡ false
        → course.going tsn.number ≡ true
        → IsFirst line (line_at (D.view disk.now).content key)
        → VersionFacts (D.view disk.now) now limit course
        → SeatVersions (D.view disk.now) course tsn all lines
        → SeatVersions (D.view disk.now) course tsn all more }

    // A further change keeps transaction and chain.
    ensures further { (course : Course) (key : Dbkey) (line before : Line)
        → (tsn : Tsn) (all : List Undo) (lines more : ChangedLines)
        → PutsIn lines key line more → line.tsn ≡ tsn → HasLine lines key before
        → ((i : ℕ) (other : Dbkey × Line) → slice_get lines i ≡ Some other → other.0 ≡ key
        → other.1 ≡ before)
        → line.chain ≡ before.chain
        → SeatVersions (D.view disk.now) course tsn all lines
        → SeatVersions (D.view disk.now) course tsn all more }

    // A line that no transaction bears that goes on is the committed one: its before-image is its base.
    ensures journalled { (now : Progress) (limit : ℕ) (course : Course) (key : Dbkey)
        → (tsn : Tsn) (all : List Undo) (lines : ChangedLines)
        → course.going (line_at (D.view disk.now).content key).tsn.number ≡ false
        → VersionFacts (D.view disk.now) now limit course
        → SeatVersions (D.view disk.now) course tsn all lines
        → SeatVersions (D.view disk.now) course tsn
        (all ++ (record { key = key; before = line_at (D.view disk.now).content key }) ∷ []) lines }
{}

/// Lines that wait do so while others write.
pub fn lines_wait_on<D: Disk>(before: &D, after: &D)
    requires tells { IsTrue (D.view before.now).tells }

    // Nothing was written: a read, or a barrier.
    ensures reads { (course : Course) (tsn : Tsn) (all : List Undo) (lines : ChangedLines)
        → OnlyReads (D.view before.now) (D.view after.now)
        → SeatVersions (D.view before.now) course tsn all lines
        → SeatVersions (D.view after.now) course tsn all lines }

    // A slot of another file than a snapshot file, pages among them.
    ensures aside { (course : Course) (tsn : Tsn) (all : List Undo) (lines : ChangedLines)
        → (file : FileId) (slot : ℕ) → file.kind ≢ Snap
        → OnlyWrites file slot (D.view before.now) (D.view after.now)
        → SeatVersions (D.view before.now) course tsn all lines
        → SeatVersions (D.view after.now) course tsn all lines }

    // A slot that isn't followed.
    ensures slot { (course : Course) (tsn : Tsn) (all : List Undo) (lines : ChangedLines)
        → (number slot : ℕ)
        → ((chain : ℕ) → 1 ≤ chain → slot ≡ chain - 1 → course.followed number chain ≡ true → ⊥)
        → OnlyWrites (snap_file number) slot (D.view before.now) (D.view after.now)
        → SeatVersions (D.view before.now) course tsn all lines
        → SeatVersions (D.view after.now) course tsn all lines }
{}

/// They wait through the steps of others and of readers.
pub fn lines_wait_through_steps<D: Disk>(disk: &D)
    ensures pushed { (course : Course) (tsn : Tsn) (all : List Undo) (lines : ChangedLines)
        → (number chain : ℕ) (entry : SnapEntry)
        → entries_in (D.view disk.now).content number chain entry
        → entry.pusher.number ≢ tsn.number
        → SeatVersions (D.view disk.now) course tsn all lines
        → SeatVersions (D.view disk.now) (course_pushed number chain course) tsn all lines }
    ensures begun { (course : Course) (tsn : Tsn) (all : List Undo) (lines : ChangedLines)
        → SeatVersions (D.view disk.now) course tsn all lines
        → SeatVersions (D.view disk.now) (course_begun course) tsn all lines }
    ensures undone { (course : Course) (tsn : Tsn) (all : List Undo) (lines : ChangedLines)
        → (other : ℕ) → tsn.number ≢ other
        → SeatVersions (D.view disk.now) course tsn all lines
        → SeatVersions (D.view disk.now) (course_undone other course) tsn all lines }

    // Another lands, whose number none of these lines bears on the disk.
    ensures landed { (course : Course) (tsn : Tsn) (all : List Undo) (lines : ChangedLines)
        → (other : ℕ) (committed : Lines) → tsn.number ≢ other
        → ((i : ℕ) (undo : Undo) → slice_get all i ≡ Some undo
        → (line_at (D.view disk.now).content undo.key).tsn.number ≢ other)
        → ((i : ℕ) (line : Dbkey × Line) → slice_get lines i ≡ Some line
        → (line_at (D.view disk.now).content line.0).tsn.number ≢ other)
        → SeatVersions (D.view disk.now) course tsn all lines
        → SeatVersions (D.view disk.now)
        (course_landed other (line_at (D.view disk.now).content) committed course) tsn all lines }

    // A reader begins, or ends.
    ensures reading { (course : Course) (tsn : Tsn) (all : List Undo) (lines : ChangedLines)
        → (session : ℕ) (active : List ℕ)
        → SeatVersions (D.view disk.now) course tsn all lines
        → SeatVersions (D.view disk.now) (course_reading session active course) tsn all lines }
    ensures read { (course : Course) (tsn : Tsn) (all : List Undo) (lines : ChangedLines)
        → (session : ℕ) → SeatVersions (D.view disk.now) course tsn all lines
        → SeatVersions (D.view disk.now) (course_read session course) tsn all lines }

    // Slots are given back that it didn't push.
    ensures given { (course : Course) (tsn : Tsn) (all : List Undo) (lines : ChangedLines)
        → (given : ℕ → ℕ → Bool)
        → ((file chain : ℕ) (entry : SnapEntry) → given file chain ≡ true
        → course.followed file chain ≡ true
        → entries_in (D.view disk.now).content file chain entry
        → entry.pusher.number ≢ tsn.number)
        → SeatVersions (D.view disk.now) course tsn all lines
        → SeatVersions (D.view disk.now) (course_given given course) tsn all lines }
{}
