// What is always true of versions, and that each step keeps it.
ghost use Rattle.std.specs.Prelude.{◌≡◌, ◌≢◌, ◌≤◌, ◌<◌, ◌+◌, ◌-◌, ◌⊎◌, ℕ, Bool, false, true, List, length, Option, Some, None};
ghost use Rattle.rdb_outside.specs.rdb_types.declared.file.FileId.{FileId};
ghost use Rattle.rdb_outside.specs.rdb_types.declared.keys.Dbkey.{Dbkey};
ghost use Rattle.rdb_outside.specs.rdb_types.declared.keys.Line.{Line};
ghost use Rattle.rdb_outside.specs.rdb_types.declared.keys.LineState.TheVariants.{Never};
ghost use Rattle.rdb_outside.specs.Disk.{Image, Puts};
ghost use Rattle.snapshot_file.specs.declared.entry.SnapEntry.{SnapEntry};
ghost use Rattle.line_versions.specs.Lines.{shown};
ghost use Rattle.line_versions.specs.Versions.{Followed, Start, Walk, Sees, snap_of};
ghost use Rattle.line_versions.specs.Files.{snap_file, entries_in, IsWithin};
ghost use Rattle.line_versions.specs.Course.{pushed, Reading, Course, opened, with_followed, with_entry, without_entry, with_going, with_readers, committed, begun, MayBeGiven, AreOthers, IsSettled, IsLeft, AreActive, IsFirst, IsChanged, AreRight};
ghost use Rattle.line_versions.specs.Exact.{AreExact, IsOnTop, Passes};

/// From each current line every reader comes to what was committed when it began.
pub fn readers_come_to_their_lines()
    ensures versions { (image : Image) (now : Dbkey → Line) (course : Course) → AreRight (entries_in image) now course
        → (session : ℕ) (reading : Reading) → course.reader session ≡ Some reading
        → (key : Dbkey) → Sees (entries_in image) course.followed reading.start key (now key) (reading.lines key) }

    // A line that was never used was not there for any of them.
    ensures unused { (image : Image) (now : Dbkey → Line) (course : Course) → AreRight (entries_in image) now course
        → (session : ℕ) (reading : Reading) → course.reader session ≡ Some reading
        → (key : Dbkey) → (now key).state ≡ Never → (now key).chain ≡ 0 → reading.lines key ≡ None }
{}

/// A walk comes to no slot twice.
pub fn walks_are_short()
    ensures { (image : Image) (followed : Followed) (start : Start) (key : Dbkey) (over : List ℕ) (line : Line)
        (answer : Option (List ℕ)) (limit : ℕ) → IsWithin limit followed
        → Walk (entries_in image) followed start key over line answer → length over ≤ limit }
{}

/// Each step of transactions and readers keeps the versions.
pub fn steps_keep_versions()
    // Lines are found at opening.
    ensures opens { (image : Image) (now : Dbkey → Line) (lines : Dbkey → Option (List ℕ)) (next : ℕ)
        → ((key : Dbkey) → shown (now key) ≡ lines key) → ((key : Dbkey) → (now key).tsn.number < next)
        → AreRight (entries_in image) now (opened next now lines) }

    // A slot is written that isn't followed.
    ensures written { (old new : Image) (file : FileId) (slot : ℕ) (bytes : List ℕ) (now : Dbkey → Line)
        (course : Course) → Puts file slot bytes old new
        → ((number chain : ℕ) → 1 ≤ chain → course.followed number chain ≡ true → file ≡ snap_file number → slot ≢ chain - 1)
        → AreRight (entries_in old) now course → AreRight (entries_in new) now course }

    // The line as it stands was written to a slot that isn't followed, and the line is changed.
    ensures first_change { (old new : Image) (bytes : List ℕ) (now then : Dbkey → Line) (course : Course)
        (key : Dbkey) (line : Line) → 1 ≤ line.chain → course.followed (snap_of key) line.chain ≡ false
        → Puts (snap_file (snap_of key)) (line.chain - 1) bytes old new
        → entries_in new (snap_of key) line.chain (pushed key line.tsn (now key))
        → course.going (now key).tsn.number ≡ false → course.going line.tsn.number ≡ true
        → ((other : Dbkey) → (then other ≡ now other) ⊎ ((other ≡ key) × (then other ≡ line)))
        → AreRight (entries_in old) now course
        → AreRight (entries_in new) then (with_followed (with_entry (snap_of key) line.chain course.followed) course) }

    // One slot more is followed.
    ensures held { (image : Image) (file chain : ℕ) (now : Dbkey → Line) (course : Course)
        → AreRight (entries_in image) now course
        → AreRight (entries_in image) now (with_followed (with_entry file chain course.followed) course) }

    // What a change of a line that was never used is, and a further change by the same transaction.
    ensures new_line { (image : Image) (now : Dbkey → Line) (course : Course) (key : Dbkey) (line : Line)
        → AreRight (entries_in image) now course
        → course.going (now key).tsn.number ≡ false → course.going line.tsn.number ≡ true
        → IsFirst line (now key) → IsChanged (entries_in image) course key line }
    ensures further { (image : Image) (now : Dbkey → Line) (course : Course) (key : Dbkey) (line : Line)
        → AreRight (entries_in image) now course → course.going line.tsn.number ≡ true
        → line.tsn ≡ (now key).tsn → line.chain ≡ (now key).chain
        → IsChanged (entries_in image) course key line }

    // Lines are changed and undone.
    ensures lines { (image : Image) (now then : Dbkey → Line) (course : Course)
        → ((key : Dbkey) → (then key ≡ now key) ⊎ ((then key ≡ course.base key) ⊎ IsChanged (entries_in image) course key (then key)))
        → AreRight (entries_in image) now course → AreRight (entries_in image) then course }

    // A transaction begins.
    ensures begins { (image : Image) (now : Dbkey → Line) (course : Course) (going : ℕ → Bool)
        → ((tsn : ℕ) → going tsn ≡ true → (course.going tsn ≡ true) ⊎ (tsn ≡ course.next))
        → ((tsn : ℕ) → course.going tsn ≡ true → going tsn ≡ true)
        → AreRight (entries_in image) now course → AreRight (entries_in image) now (with_going (course.next + 1) going course) }

    // A transaction ends as undone, also that of a dead member.
    ensures undone { (image : Image) (now : Dbkey → Line) (course : Course) (going : ℕ → Bool) (tsn : ℕ)
        → AreOthers tsn course.going going → ((key : Dbkey) → (now key).tsn.number ≢ tsn)
        → AreRight (entries_in image) now course → AreRight (entries_in image) now (with_going course.next going course) }

    // A transaction commits, also that of a dead member whose group is whole.
    ensures commits { (image : Image) (now : Dbkey → Line) (course : Course) (going : ℕ → Bool)
        (base : Dbkey → Line) (lines : Dbkey → Option (List ℕ)) (tsn : ℕ)
        → AreOthers tsn course.going going → course.going tsn ≡ true
        → ((key : Dbkey) → IsSettled tsn (now key) (base key) (lines key)
        ⊎ IsLeft tsn (now key) (course.base key) (base key) (course.lines key) (lines key))
        → AreRight (entries_in image) now course → AreRight (entries_in image) now (committed going base lines course) }

    // Readers end, and one begins.
    ensures readers { (image : Image) (now : Dbkey → Line) (course : Course) (active : List ℕ)
        (reader : ℕ → Option Reading) → AreActive active course
        → ((session : ℕ) (reading : Reading) → reader session ≡ Some reading
        → (course.reader session ≡ Some reading) ⊎ (reading ≡ begun active course))
        → AreRight (entries_in image) now course → AreRight (entries_in image) now (with_readers reader course) }

    // A slot is given back.
    ensures given { (image : Image) (file chain : ℕ) (now : Dbkey → Line) (course : Course)
        → ((entry : SnapEntry) → entries_in image file chain entry → MayBeGiven course entry)
        → AreRight (entries_in image) now course
        → AreRight (entries_in image) now (with_followed (without_entry file chain course.followed) course) }
{}

/// Of an entry whose transaction has ended, a reader comes over it exactly where it doesn't see that transaction.
pub fn wanted_entries_are_exact()
    // So whatever no reader comes over may be given back, and nothing else.
    ensures given { (image : Image) (course : Course) → AreExact (entries_in image) course
        → (file chain : ℕ) (entry : SnapEntry) → course.followed file chain ≡ true
        → entries_in image file chain entry → course.going entry.pusher.number ≡ false
        → ((session : ℕ) (reading : Reading) → course.reader session ≡ Some reading
        → Passes (entries_in image) course reading entry.key chain → ⊥) → MayBeGiven course entry }
    ensures wanted { (image : Image) (course : Course) (chain : ℕ) (entry : SnapEntry)
        → entries_in image (snap_of entry.key) chain entry → MayBeGiven course entry
        → (session : ℕ) (reading : Reading) → course.reader session ≡ Some reading
        → Passes (entries_in image) course reading entry.key chain → ⊥ }

    // Lines are found at opening.
    ensures opens { (image : Image) (now : Dbkey → Line) (lines : Dbkey → Option (List ℕ)) (next : ℕ)
        → AreExact (entries_in image) (opened next now lines) }

    // A transaction begins.
    ensures begins { (image : Image) (course : Course) (going : ℕ → Bool)
        → ((tsn : ℕ) → going tsn ≡ true → (course.going tsn ≡ true) ⊎ (tsn ≡ course.next))
        → ((tsn : ℕ) → course.going tsn ≡ true → going tsn ≡ true)
        → AreExact (entries_in image) course
        → AreExact (entries_in image) (with_going (course.next + 1) going course) }

    // A transaction ends as undone, when what it pushed is given back.
    ensures undone { (image : Image) (course : Course) (going : ℕ → Bool) (tsn : ℕ)
        → AreOthers tsn course.going going
        → ((file chain : ℕ) (entry : SnapEntry) → course.followed file chain ≡ true
        → entries_in image file chain entry → entry.pusher.number ≢ tsn)
        → AreExact (entries_in image) course
        → AreExact (entries_in image) (with_going course.next going course) }

    // A transaction commits. Each entry that it pushed stands at the chain of its line.
    ensures commits { (image : Image) (now : Dbkey → Line) (course : Course) (going : ℕ → Bool)
        (base : Dbkey → Line) (lines : Dbkey → Option (List ℕ)) (tsn : ℕ)
        → AreOthers tsn course.going going → course.going tsn ≡ true
        → ((key : Dbkey) → IsSettled tsn (now key) (base key) (lines key)
        ⊎ IsLeft tsn (now key) (course.base key) (base key) (course.lines key) (lines key))
        → ((file chain : ℕ) (entry : SnapEntry) → course.followed file chain ≡ true
        → entries_in image file chain entry → entry.pusher.number ≡ tsn → IsOnTop now tsn file chain entry)
        → AreRight (entries_in image) now course → AreExact (entries_in image) course
        → AreExact (entries_in image) (committed going base lines course) }

    // Readers end, and one begins.
    ensures readers { (image : Image) (course : Course) (active : List ℕ) (reader : ℕ → Option Reading)
        → AreActive active course
        → ((session : ℕ) (reading : Reading) → reader session ≡ Some reading
        → (course.reader session ≡ Some reading) ⊎ (reading ≡ begun active course))
        → AreExact (entries_in image) course → AreExact (entries_in image) (with_readers reader course) }
{}

/// What an undone transaction pushed may be given back, whatever readers there are: no line bears its number.
pub fn undone_entries_are_free()
    ensures right { (image : Image) (now : Dbkey → Line) (course : Course) (tsn file chain : ℕ)
        → course.going tsn ≡ true → ((key : Dbkey) → (now key).tsn.number ≢ tsn)
        → ((entry : SnapEntry) → entries_in image file chain entry → entry.pusher.number ≡ tsn)
        → AreRight (entries_in image) now course → AreExact (entries_in image) course
        → AreRight (entries_in image) now (with_followed (without_entry file chain course.followed) course) }
    ensures exact { (image : Image) (now : Dbkey → Line) (course : Course) (tsn file chain : ℕ)
        → course.going tsn ≡ true → ((key : Dbkey) → (now key).tsn.number ≢ tsn)
        → ((entry : SnapEntry) → entries_in image file chain entry → entry.pusher.number ≡ tsn)
        → AreRight (entries_in image) now course → AreExact (entries_in image) course
        → AreExact (entries_in image) (with_followed (without_entry file chain course.followed) course) }
{}
