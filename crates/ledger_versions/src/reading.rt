// Readers.
ghost use Rattle.std.specs.Prelude.{◌≡◌, ℕ, Bool, true, List, [], Some};
ghost use Rattle.rdb_types.specs.declared.keys.Dbkey.{Dbkey};
ghost use Rattle.snapshot_file.specs.declared.entry.SnapEntry.{SnapEntry};
ghost use Rattle.line_view.specs.Knowledge.{line_in};
ghost use Rattle.line_versions.specs.Versions.{Sees};
ghost use Rattle.line_versions.specs.Files.{entries_in};
ghost use Rattle.line_versions.specs.Course.{AreActive, Course, MayBeGiven, Reading, begun};
ghost use Rattle.stable_lines.specs.Slots.{line_at};
ghost use Rattle.stable_lines.specs.Progress.{Progress};
ghost use Rattle.disk_seats.specs.Ledgers.{Ledger, new_ledger};
ghost use Rattle.disk_versions.specs.Courses.{course_given, course_read, course_reading};
ghost use Rattle.disk_versions.specs.Versions.{VersionFacts};
ghost use Rattle.ledger_versions.specs.Readers.{ReaderFacts, Waiting};

use rdb_outside::Disk;

/// Behind an opening no line waits, and there is no reader.
pub fn readers_begin<D: Disk>(disk: &D)
    ensures { (base : Progress) (moment limit : ℕ) (course : Course)
        → VersionFacts (D.view disk.now) base limit course
        → ReaderFacts (D.view disk.now) (new_ledger base moment) limit course (λ member. []) }
{}

/// Each reader comes to the lines that were committed when it began.
pub fn readers_see_their_lines<D: Disk>(disk: &D)
    ensures sees { (ledger : Ledger) (limit : ℕ) (course : Course) (waiting : Waiting)
        → (session : ℕ) (reading : Reading) (key : Dbkey)
        → ReaderFacts (D.view disk.now) ledger limit course waiting
        → course.reader session ≡ Some reading
        → Sees (entries_in (D.view disk.now).content) course.followed reading.start key
        (line_at (D.view disk.now).content key) (reading.lines key) }
    ensures began { (ledger : Ledger) (limit : ℕ) (course : Course) (waiting : Waiting)
        → (active : List ℕ) (key : Dbkey)
        → ReaderFacts (D.view disk.now) ledger limit course waiting
        → (begun active course).lines key ≡ line_in key ledger.base.lines }
{}

/// Readers begin and end, and slots are given back.
pub fn readers_and_slots<D: Disk>(disk: &D)
    ensures begins { (ledger : Ledger) (limit : ℕ) (course : Course) (waiting : Waiting)
        → (session : ℕ) (active : List ℕ) → AreActive active course
        → ReaderFacts (D.view disk.now) ledger limit course waiting
        → ReaderFacts (D.view disk.now) ledger limit (course_reading session active course) waiting }
    ensures ends { (ledger : Ledger) (limit : ℕ) (course : Course) (waiting : Waiting)
        → (session : ℕ)
        → ReaderFacts (D.view disk.now) ledger limit course waiting
        → ReaderFacts (D.view disk.now) ledger limit (course_read session course) waiting }

    // Those of transactions that have ended, which every reader sees.
    ensures given { (ledger : Ledger) (limit : ℕ) (course : Course) (waiting : Waiting)
        → (given : ℕ → ℕ → Bool)
        → ((file chain : ℕ) (entry : SnapEntry) → given file chain ≡ true
        → course.followed file chain ≡ true
        → entries_in (D.view disk.now).content file chain entry → MayBeGiven course entry)
        → ReaderFacts (D.view disk.now) ledger limit course waiting
        → ReaderFacts (D.view disk.now) ledger limit (course_given given course) waiting }
{}
