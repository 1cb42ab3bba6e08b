// What is kept of the slots, through the calls and steps of others.
ghost use Rattle.std.specs.Prelude.{◌≡◌, ◌≢◌, ◌-◌, ◌≤◌, ℕ, true, IsTrue};
ghost use Rattle.rdb_types.specs.declared.file.FileId.{FileId};
ghost use Rattle.rdb_types.specs.declared.file.FileKind.TheVariants.{Snap};
ghost use Rattle.rdb_types.specs.declared.keys.Dbkey.{Dbkey};
ghost use Rattle.rdb_outside.specs.Disk.{OnlyReads};
ghost use Rattle.snapshot_file.specs.declared.entry.SnapEntry.{SnapEntry};
ghost use Rattle.line_versions.specs.Versions.{Followed};
ghost use Rattle.line_versions.specs.Files.{entries_in, snap_file};
ghost use Rattle.line_versions.specs.Course.{Course, with_entry};
ghost use Rattle.stable_lines.specs.Slots.{line_at};
ghost use Rattle.stable_lines.specs.Progress.{Progress};
ghost use Rattle.line_moves.specs.Calls.{OnlyWrites};
ghost use Rattle.disk_versions.specs.Courses.{course_given};
ghost use Rattle.disk_versions.specs.Versions.{VersionFacts};
ghost use Rattle.version_writing.specs.Slots.{GivesBack, HoldsFile, SlotTable, chains_of};
ghost use Rattle.version_writing.specs.Wanting.{Sifts, IsPast, free_in};

use rdb_outside::Disk;

/// What is kept of the slots of a file stays true through device calls, and while entries of other files come to be followed.
pub fn slots_are_held<D: Disk>(before: &D, after: &D)
    requires tells { IsTrue (D.view before.now).tells }

    // Nothing was written: a read, or a barrier.
    ensures reads { (followed : Followed) (file limit : ℕ) (table : SlotTable)
        → OnlyReads (D.view before.now) (D.view after.now)
        → HoldsFile (D.view before.now).content followed file limit table
        → HoldsFile (D.view after.now).content followed file limit table }

    // A slot of another file than a snapshot file.
    ensures aside { (followed : Followed) (file limit : ℕ) (table : SlotTable)
        → (other : FileId) (slot : ℕ) → other.kind ≢ Snap
        → OnlyWrites other slot (D.view before.now) (D.view after.now)
        → HoldsFile (D.view before.now).content followed file limit table
        → HoldsFile (D.view after.now).content followed file limit table }

    // A slot that isn't followed.
    ensures slot { (followed : Followed) (file limit : ℕ) (table : SlotTable) (number slot : ℕ)
        → ((chain : ℕ) → 1 ≤ chain → slot ≡ chain - 1 → followed number chain ≡ true → ⊥)
        → OnlyWrites (snap_file number) slot (D.view before.now) (D.view after.now)
        → HoldsFile (D.view before.now).content followed file limit table
        → HoldsFile (D.view after.now).content followed file limit table }
    ensures beside { (followed : Followed) (file limit : ℕ) (table : SlotTable) (number chain : ℕ)
        → file ≢ number
        → HoldsFile (D.view after.now).content followed file limit table
        → HoldsFile (D.view after.now).content (with_entry number chain followed) file limit table }
{}

/// Slots that are given back aren't followed any more.
pub fn slots_come_free<D: Disk>(disk: &D)
    // Those of a transaction that goes on, which no line bears: it is about to end as undone.
    ensures undone { (now : Progress) (course : Course) (file limit tsn : ℕ) (old new : SlotTable)
        → GivesBack old new tsn → course.going tsn ≡ true
        → ((key : Dbkey) → (line_at (D.view disk.now).content key).tsn.number ≢ tsn)
        → HoldsFile (D.view disk.now).content course.followed file limit old
        → VersionFacts (D.view disk.now) now limit course
        → let after = course_given (chains_of file old tsn) course in
        VersionFacts (D.view disk.now) now limit after
        × HoldsFile (D.view disk.now).content after.followed file limit new
        × ((chain : ℕ) (entry : SnapEntry) → after.followed file chain ≡ true
        → entries_in (D.view disk.now).content file chain entry → entry.pusher.number ≢ tsn) }

    // Those of transactions that have ended and that each reader sees.
    ensures past { (now : Progress) (course : Course) (file limit : ℕ) (old new : SlotTable)
        → Sifts (IsPast course) old new
        → HoldsFile (D.view disk.now).content course.followed file limit old
        → VersionFacts (D.view disk.now) now limit course
        → let after = course_given (free_in file new) course in
        VersionFacts (D.view disk.now) now limit after
        × HoldsFile (D.view disk.now).content after.followed file limit new }

    // What is given back of another file.
    ensures beside { (course : Course) (file other limit tsn : ℕ) (table theirs : SlotTable)
        → file ≢ other
        → HoldsFile (D.view disk.now).content course.followed file limit table
        → HoldsFile (D.view disk.now).content
        (course_given (chains_of other theirs tsn) course).followed file limit table }
{}
