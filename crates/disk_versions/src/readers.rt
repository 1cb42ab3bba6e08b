// Readers.
ghost use Rattle.std.specs.Prelude.{◌≡◌, ℕ, List, Some};
ghost use Rattle.rdb_types.specs.declared.keys.Dbkey.{Dbkey};
ghost use Rattle.line_view.specs.Knowledge.{line_in};
ghost use Rattle.line_versions.specs.Versions.{Sees};
ghost use Rattle.line_versions.specs.Files.{entries_in};
ghost use Rattle.line_versions.specs.Course.{Course, Reading, AreActive, begun};
ghost use Rattle.line_opening.specs.stable_lines.Slots.{line_at};
ghost use Rattle.line_opening.specs.stable_lines.Progress.{Progress};
ghost use Rattle.disk_versions.specs.Courses.{course_reading, course_read};
ghost use Rattle.disk_versions.specs.Versions.{VersionFacts};

use rdb_outside::Disk;

/// From what reads give, each reader comes to the lines of its start.
pub fn readers_see_their_lines<D: Disk>(disk: &D)
    ensures sees { (now : Progress) (limit : ℕ) (course : Course) (session : ℕ) (reading : Reading) (key : Dbkey)
        → VersionFacts (D.view disk.now) now limit course
        → course.reader session ≡ Some reading
        → Sees (entries_in (D.view disk.now).content) course.followed reading.start key
        (line_at (D.view disk.now).content key) (reading.lines key) }

    // Those are what was committed when it began.
    ensures began { (now : Progress) (limit : ℕ) (course : Course) (active : List ℕ) (key : Dbkey)
        → VersionFacts (D.view disk.now) now limit course
        → (begun active course).lines key ≡ line_in key now.lines }
{}

/// Readers begin and end.
pub fn readers_come_and_go<D: Disk>(disk: &D)
    // One begins, and keeps the numbers of the transactions that go on.
    ensures begins { (now : Progress) (limit : ℕ) (course : Course) (session : ℕ) (active : List ℕ)
        → AreActive active course
        → VersionFacts (D.view disk.now) now limit course
        → VersionFacts (D.view disk.now) now limit (course_reading session active course) }
    ensures ends { (now : Progress) (limit : ℕ) (course : Course) (session : ℕ)
        → VersionFacts (D.view disk.now) now limit course
        → VersionFacts (D.view disk.now) now limit (course_read session course) }
{}
