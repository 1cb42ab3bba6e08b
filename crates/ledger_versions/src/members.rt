// Members begin, commit and end; and stand otherwise.
ghost use Rattle.std.specs.Prelude.{◌≡◌, ◌≢◌, ◌≤◌, ℕ, Bool, true, false, List, [], length, Some, None, IsTrue};
ghost use Rattle.snapshot_file.specs.declared.entry.SnapEntry.{SnapEntry};
ghost use Rattle.line_versions.specs.Files.{entries_in};
ghost use Rattle.line_versions.specs.Course.{Course};
ghost use Rattle.stable_lines.specs.Slots.{Undo, line_at};
ghost use Rattle.stable_lines.specs.Progress.{Open, lines_with};
ghost use Rattle.line_moves.specs.Lines.{ArePut};
ghost use Rattle.disk_seats.specs.line_seat.declared.commit.CommitStage.{CommitStage};
ghost use Rattle.disk_seats.specs.line_seat.declared.commit.CommitStage.TheVariants.{Gathering};
ghost use Rattle.disk_seats.specs.Ledgers.{Commit, Ledger, all_stable, begun_by, broken, changing, ended_by, flies, given_up, gone_on, held_up, landed_at, marked_at, resting, stands_as, taken_up, undoing};
ghost use Rattle.disk_seats.specs.Members.{LedgerFacts};
ghost use Rattle.disk_versions.specs.Courses.{course_begun, course_given, course_landed, course_undone};
ghost use Rattle.ledger_versions.specs.Readers.{MayEndUndone, ReaderFacts, Waiting, set_waiting};

use rdb_outside::Disk;

/// Transactions begin, begin to commit, land, and end as undone.
pub fn members_keep_readers<D: Disk>(disk: &D)
    requires tells { IsTrue (D.view disk.now).tells }
    ensures begins { (ledger : Ledger) (limit : ℕ) (course : Course) (waiting : Waiting)
        → (member : ℕ) → LedgerFacts (D.view disk.now) ledger
        → ledger.standing member ≡ resting
        → ReaderFacts (D.view disk.now) ledger limit course waiting
        → ReaderFacts (D.view disk.now) (begun_by member ledger) limit (course_begun course)
        (set_waiting member [] waiting) }

    // The lines that waited are those of the commit.
    ensures commits { (ledger : Ledger) (limit : ℕ) (course : Course) (waiting : Waiting)
        → (commit : Commit) (transaction : Open) (stable : ℕ)
        → ledger.standing commit.member ≡ changing commit.transaction.entries stable
        → ledger.base.going commit.member ≡ Some transaction
        → waiting commit.member ≡ commit.lines → flies commit.stage ≡ false
        → ReaderFacts (D.view disk.now) ledger limit course waiting
        → ReaderFacts (D.view disk.now) (taken_up commit transaction ledger) limit course
        (set_waiting commit.member commit.lines waiting) }

    // Its group stands, also that of a member that died.
    ensures lands { (ledger : Ledger) (limit : ℕ) (course : Course) (waiting : Waiting)
        → (commit : Commit) (moment : ℕ)
        → LedgerFacts (D.view disk.now) ledger
        → LedgerFacts (D.view disk.now) (landed_at moment commit ledger)
        → ledger.commit ≡ Some commit → flies commit.stage ≡ true
        → ReaderFacts (D.view disk.now) ledger limit course waiting
        → ReaderFacts (D.view disk.now) (landed_at moment commit ledger) limit
        (course_landed commit.transaction.tsn.number (line_at (D.view disk.now).content)
        (lines_with ledger.base commit.flight) course) (set_waiting commit.member [] waiting) }

    // What it pushed is given back then.
    ensures ends { (ledger : Ledger) (limit : ℕ) (course : Course) (waiting : Waiting)
        → (member : ℕ) (transaction : Open) (given : ℕ → ℕ → Bool)
        → LedgerFacts (D.view disk.now) ledger → MayEndUndone (ledger.standing member)
        → ledger.base.going member ≡ Some transaction
        → ((file chain : ℕ) (entry : SnapEntry) → given file chain ≡ true
        → course.followed file chain ≡ true
        → entries_in (D.view disk.now).content file chain entry
        → entry.pusher.number ≡ transaction.tsn.number)
        → ((file chain : ℕ) (entry : SnapEntry)
        → (course_given given course).followed file chain ≡ true
        → entries_in (D.view disk.now).content file chain entry
        → entry.pusher.number ≢ transaction.tsn.number)
        → ReaderFacts (D.view disk.now) ledger limit course waiting
        → ReaderFacts (D.view disk.now) (ended_by member ledger) limit
        (course_undone transaction.tsn.number (course_given given course))
        (set_waiting member [] waiting) }
{}

/// Where a member or its commit stands otherwise, readers come to the same.
pub fn standings_keep_readers<D: Disk>(disk: &D)
    // A barrier made all before-images stable.
    ensures settled { (ledger : Ledger) (limit : ℕ) (course : Course) (waiting : Waiting)
        → ReaderFacts (D.view disk.now) ledger limit course waiting
        → ReaderFacts (D.view disk.now) (all_stable ledger) limit course waiting }

    // A before-image failed, or so many are left to be put back.
    ensures broken { (ledger : Ledger) (limit : ℕ) (course : Course) (waiting : Waiting) (member : ℕ)
        → ReaderFacts (D.view disk.now) ledger limit course waiting
        → ReaderFacts (D.view disk.now) (stands_as member broken ledger) limit course waiting }
    ensures undoing { (ledger : Ledger) (limit : ℕ) (course : Course) (waiting : Waiting)
        → (member left : ℕ) (all : List Undo)
        → ReaderFacts (D.view disk.now) ledger limit course waiting
        → ReaderFacts (D.view disk.now) (stands_as member (undoing all left) ledger) limit course
        waiting }

    // The commit goes on, is to go on behind a fault, or is given up. Its lines stand on their pages once its group flies.
    ensures gathered { (ledger : Ledger) (commit : Commit) → LedgerFacts (D.view disk.now) ledger
        → ledger.commit ≡ Some commit → commit.stage ≡ Gathering
        → ArePut (D.view disk.now).content commit.lines (length commit.lines) }
    ensures gone_on { (ledger : Ledger) (limit : ℕ) (course : Course) (waiting : Waiting)
        → (commit : Commit) (next : CommitStage) → ledger.commit ≡ Some commit
        → (flies next ≡ true
        → ArePut (D.view disk.now).content commit.lines (length commit.lines))
        → ReaderFacts (D.view disk.now) ledger limit course waiting
        → ReaderFacts (D.view disk.now) (gone_on next commit ledger) limit course waiting }
    ensures held_up { (ledger : Ledger) (limit : ℕ) (course : Course) (waiting : Waiting)
        → (commit : Commit) → ledger.commit ≡ Some commit
        → ReaderFacts (D.view disk.now) ledger limit course waiting
        → ReaderFacts (D.view disk.now) (held_up commit ledger) limit course waiting }
    ensures given_up { (ledger : Ledger) (limit : ℕ) (course : Course) (waiting : Waiting)
        → (commit : Commit)
        → ReaderFacts (D.view disk.now) ledger limit course waiting
        → ReaderFacts (D.view disk.now) (given_up commit ledger) limit course waiting }

    // A commit of no lines.
    ensures marked { (ledger : Ledger) (limit moment : ℕ) (course : Course) (waiting : Waiting)
        → ReaderFacts (D.view disk.now) ledger limit course waiting
        → ReaderFacts (D.view disk.now) (marked_at moment ledger) limit course waiting }
{}
