// What device calls keep of the versions.
ghost use Rattle.std.specs.Prelude.{◌≡◌, ◌≢◌, ◌-◌, ◌≤◌, ℕ, Bool, true, List, None, Some, IsTrue};
ghost use Rattle.rdb_types.specs.declared.file.FileId.{FileId};
ghost use Rattle.rdb_types.specs.declared.file.FileKind.TheVariants.{Area, Snap};
ghost use Rattle.rdb_types.specs.declared.keys.Dbkey.{Dbkey};
ghost use Rattle.rdb_types.specs.declared.keys.Tsn.{Tsn};
ghost use Rattle.rdb_outside.specs.Disk.{Pending, OnlyReads};
ghost use Rattle.snapshot_file.specs.declared.entry.SnapEntry.{SnapEntry};
ghost use Rattle.line_view.specs.Knowledge.{line_in};
ghost use Rattle.line_versions.specs.Files.{entries_in, snap_file};
ghost use Rattle.line_versions.specs.Course.{Course, MayBeGiven, opened};
ghost use Rattle.line_opening.specs.stable_lines.Slots.{Undo, line_at};
ghost use Rattle.line_opening.specs.stable_lines.Progress.{Open, Progress};
ghost use Rattle.line_opening.specs.stable_lines.Facts.{Facts};
ghost use Rattle.line_opening.specs.line_moves.Calls.{OnlyWrites};
ghost use Rattle.line_opening.specs.line_moves.Changes.{KeepsLines};
ghost use Rattle.line_opening.specs.line_moves.Lines.{ChangedLines, PutsOnly};
ghost use Rattle.line_opening.specs.Undoing.{PutsBack};
ghost use Rattle.disk_versions.specs.Courses.{course_given};
ghost use Rattle.disk_versions.specs.Versions.{SeatVersions, VersionFacts};

use rdb_outside::Disk;

/// Behind an opening, where no transaction goes on, the lines are as they were found. Chains of an earlier run lead nowhere.
pub fn versions_are_found<D: Disk>(disk: &D)
    requires tells { IsTrue (D.view disk.now).tells }
    ensures { (now : Progress) (limit : ℕ) → Facts (Pending (D.view disk.now)) now
        → ((member : ℕ) → now.going member ≡ None)
        → VersionFacts (D.view disk.now) now limit
        (opened now.next_tsn (line_at (D.view disk.now).content) (λ key. line_in key now.lines)) }
{}

/// What is called keeps the versions, whatever it answers.
pub fn calls_keep_the_versions<D: Disk>(before: &D, after: &D)
    requires tells { IsTrue (D.view before.now).tells }

    // Nothing was written: a read, or a barrier.
    ensures reads { (now : Progress) (limit : ℕ) (course : Course)
        → OnlyReads (D.view before.now) (D.view after.now)
        → VersionFacts (D.view before.now) now limit course
        → VersionFacts (D.view after.now) now limit course }

    // A slot of another file: a root, a header, a before-image, an after-image, a commit slot.
    ensures aside { (now : Progress) (limit : ℕ) (course : Course) (file : FileId) (slot : ℕ)
        → file.kind ≢ Snap → file.kind ≢ Area
        → OnlyWrites file slot (D.view before.now) (D.view after.now)
        → VersionFacts (D.view before.now) now limit course
        → VersionFacts (D.view after.now) now limit course }

    // A slot of a snapshot file that isn't followed: a push that failed, or was cut off.
    ensures slot { (now : Progress) (limit : ℕ) (course : Course) (number slot : ℕ)
        → ((chain : ℕ) → 1 ≤ chain → slot ≡ chain - 1 → course.followed number chain ≡ true → ⊥)
        → OnlyWrites (snap_file number) slot (D.view before.now) (D.view after.now)
        → VersionFacts (D.view before.now) now limit course
        → VersionFacts (D.view after.now) now limit course }

    // The owner of a page.
    ensures entered { (now : Progress) (limit : ℕ) (course : Course) (file : FileId) (slot : ℕ)
        → file.kind ≢ Snap
        → OnlyWrites file slot (D.view before.now) (D.view after.now)
        → KeepsLines (D.view before.now).content (D.view after.now).content
        → VersionFacts (D.view before.now) now limit course
        → VersionFacts (D.view after.now) now limit course }

    // Lines that waited, put on their page.
    ensures put { (now : Progress) (limit : ℕ) (course : Course) (file : FileId) (slot : ℕ)
        → file.kind ≢ Snap → (tsn : Tsn) (all : List Undo) (lines : ChangedLines)
        → OnlyWrites file slot (D.view before.now) (D.view after.now)
        → PutsOnly lines (D.view before.now).content (D.view after.now).content
        → SeatVersions (D.view before.now) course tsn all lines
        → VersionFacts (D.view before.now) now limit course
        → VersionFacts (D.view after.now) now limit course }

    // Before-images of an open transaction, put back: image, transaction and chain together.
    ensures back { (now : Progress) (limit : ℕ) (course : Course) (file : FileId) (slot : ℕ)
        → file.kind ≢ Snap → (member : ℕ) (transaction : Open)
        → now.going member ≡ Some transaction
        → OnlyWrites file slot (D.view before.now) (D.view after.now)
        → PutsBack transaction (D.view before.now).content (D.view after.now).content
        → VersionFacts (D.view before.now) now limit course
        → VersionFacts (D.view after.now) now limit course }
{}

/// Slots are given back, and may be used again.
pub fn slots_are_given_back<D: Disk>(disk: &D)
    // The transactions that pushed their entries have ended, and every reader sees those.
    ensures unwanted { (now : Progress) (limit : ℕ) (course : Course) (given : ℕ → ℕ → Bool)
        → ((file chain : ℕ) (entry : SnapEntry) → given file chain ≡ true
        → course.followed file chain ≡ true
        → entries_in (D.view disk.now).content file chain entry → MayBeGiven course entry)
        → VersionFacts (D.view disk.now) now limit course
        → VersionFacts (D.view disk.now) now limit (course_given given course) }

    // A transaction that goes on pushed them, and no line bears it: it is about to end as undone.
    ensures undone { (now : Progress) (limit : ℕ) (course : Course) (given : ℕ → ℕ → Bool) (tsn : ℕ)
        → course.going tsn ≡ true
        → ((key : Dbkey) → (line_at (D.view disk.now).content key).tsn.number ≢ tsn)
        → ((file chain : ℕ) (entry : SnapEntry) → given file chain ≡ true
        → course.followed file chain ≡ true
        → entries_in (D.view disk.now).content file chain entry → entry.pusher.number ≡ tsn)
        → VersionFacts (D.view disk.now) now limit course
        → VersionFacts (D.view disk.now) now limit (course_given given course) }
{}
