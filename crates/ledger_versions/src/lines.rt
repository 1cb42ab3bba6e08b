// Lines that wait.
ghost use Rattle.std.specs.Prelude.{◌≡◌, ◌≢◌, ◌-◌, ◌≤◌, ◌++◌, ◌∷◌, [], ℕ, true, false, List, slice_get, Some, IsTrue};
ghost use Rattle.rdb_types.specs.declared.keys.Dbkey.{Dbkey};
ghost use Rattle.rdb_types.specs.declared.keys.Line.{Line};
ghost use Rattle.line_versions.specs.Versions.{snap_of};
ghost use Rattle.line_versions.specs.Files.{entries_in, snap_file};
ghost use Rattle.line_versions.specs.Course.{Course, IsFirst, pushed};
ghost use Rattle.stable_lines.specs.Slots.{Undo, line_at, ruj_file};
ghost use Rattle.stable_lines.specs.Progress.{Open};
ghost use Rattle.line_moves.specs.Calls.{OnlyWrites};
ghost use Rattle.line_moves.specs.Lines.{ChangedLines, HasLine};
ghost use Rattle.disk_seats.specs.Ledgers.{Ledger, changing, stands_as};
ghost use Rattle.disk_seats.specs.Members.{LedgerFacts};
ghost use Rattle.disk_versions.specs.Courses.{course_pushed};
ghost use Rattle.disk_versions.specs.Versions.{IsNoneOfThem, PutsIn};
ghost use Rattle.ledger_versions.specs.Readers.{AreAlike, HasBefore, ReaderFacts, Waiting, set_waiting};

use rdb_outside::Disk;

/// A before-image was written, of a line that no open transaction bears.
pub fn a_line_is_journalled<D: Disk>(before: &D, after: &D)
    requires tells { IsTrue (D.view before.now).tells }
    ensures { (ledger : Ledger) (limit : ℕ) (course : Course) (waiting : Waiting)
        → (member stable index : ℕ) (all : List Undo) (transaction : Open) (key : Dbkey)
        → LedgerFacts (D.view before.now) ledger → ledger.standing member ≡ changing all stable
        → ledger.base.going member ≡ Some transaction
        → OnlyWrites (ruj_file member) index (D.view before.now) (D.view after.now)
        → course.going (line_at (D.view before.now).content key).tsn.number ≡ false
        → ReaderFacts (D.view before.now) ledger limit course waiting
        → let line = line_at (D.view before.now).content key in
        let more = all ++ (record { key = key; before = line }) ∷ [] in
        ReaderFacts (D.view after.now) (stands_as member (changing more stable) ledger) limit course
        (set_waiting member (waiting member) waiting) }
{}

/// A line with a before-image was pushed aside, and its new line joins those that wait.
pub fn a_line_joins<D: Disk>(before: &D, after: &D)
    requires tells { IsTrue (D.view before.now).tells }
    ensures { (ledger : Ledger) (limit : ℕ) (course : Course) (waiting : Waiting)
        → (member stable : ℕ) (all : List Undo) (transaction : Open)
        → LedgerFacts (D.view before.now) ledger → ledger.standing member ≡ changing all stable
        → ledger.base.going member ≡ Some transaction
        → (key : Dbkey) (line : Line) (more : ChangedLines)
        → 1 ≤ line.chain → line.chain ≤ limit → course.followed (snap_of key) line.chain ≡ false
        → OnlyWrites (snap_file (snap_of key)) (line.chain - 1) (D.view before.now) (D.view after.now)
        → entries_in (D.view after.now).content (snap_of key) line.chain
        (pushed key line.tsn (line_at (D.view before.now).content key))
        → course.going (line_at (D.view before.now).content key).tsn.number ≡ false
        → line.tsn ≡ transaction.tsn → HasBefore all key
        → PutsIn (waiting member) key line more → IsNoneOfThem (waiting member) key
        → ReaderFacts (D.view before.now) ledger limit course waiting
        → ReaderFacts (D.view after.now) (stands_as member (changing all stable) ledger) limit
        (course_pushed (snap_of key) line.chain course) (set_waiting member more waiting) }
{}

/// Lines join those that wait without a push.
pub fn lines_join_without_a_push<D: Disk>(disk: &D)
    // The line was never used.
    ensures first { (ledger : Ledger) (limit : ℕ) (course : Course) (waiting : Waiting)
        → (member stable : ℕ) (all : List Undo) (transaction : Open)
        → LedgerFacts (D.view disk.now) ledger → ledger.standing member ≡ changing all stable
        → ledger.base.going member ≡ Some transaction
        → (key : Dbkey) (line : Line) (more : ChangedLines)
        → course.going (line_at (D.view disk.now).content key).tsn.number ≡ false
        → line.tsn ≡ transaction.tsn → IsFirst line (line_at (D.view disk.now).content key)
        → HasBefore all key
        → PutsIn (waiting member) key line more → IsNoneOfThem (waiting member) key
        → ReaderFacts (D.view disk.now) ledger limit course waiting
        → ReaderFacts (D.view disk.now) (stands_as member (changing all stable) ledger) limit course
        (set_waiting member more waiting) }

    // It waits already: a further change keeps transaction and chain.
    ensures again { (ledger : Ledger) (limit : ℕ) (course : Course) (waiting : Waiting)
        → (member stable : ℕ) (all : List Undo) (transaction : Open)
        → LedgerFacts (D.view disk.now) ledger → ledger.standing member ≡ changing all stable
        → ledger.base.going member ≡ Some transaction
        → (key : Dbkey) (line before : Line) (more : ChangedLines)
        → line.tsn ≡ transaction.tsn → HasLine (waiting member) key before
        → ((i : ℕ) (other : Dbkey × Line) → slice_get (waiting member) i ≡ Some other
        → other.0 ≡ key → other.1 ≡ before)
        → line.chain ≡ before.chain → PutsIn (waiting member) key line more
        → ReaderFacts (D.view disk.now) ledger limit course waiting
        → ReaderFacts (D.view disk.now) (stands_as member (changing all stable) ledger) limit course
        (set_waiting member more waiting) }

    // They show something else.
    ensures alike { (ledger : Ledger) (limit : ℕ) (course : Course) (waiting : Waiting)
        → (member stable : ℕ) (all : List Undo) (transaction : Open)
        → LedgerFacts (D.view disk.now) ledger → ledger.standing member ≡ changing all stable
        → ledger.base.going member ≡ Some transaction
        → (more : ChangedLines) → AreAlike (waiting member) more
        → ReaderFacts (D.view disk.now) ledger limit course waiting
        → ReaderFacts (D.view disk.now) (stands_as member (changing all stable) ledger) limit course
        (set_waiting member more waiting) }

    // The ledger is the one before, where the member stands as it did.
    ensures same { (ledger : Ledger) (limit : ℕ) (course : Course) (waiting : Waiting)
        → (member : ℕ) (standing : _) → ledger.standing member ≡ standing
        → ReaderFacts (D.view disk.now) (stands_as member standing ledger) limit course waiting
        → ReaderFacts (D.view disk.now) ledger limit course waiting }
{}
