// What a seat holds, while its member and others go on.
ghost use Rattle.std.specs.Prelude.{◌≡◌, ◌≢◌, ◌≤◌, ◌⊎◌, ℕ, List, [], length, slice_get, Some, None, IsTrue};
ghost use Rattle.rdb_types.specs.declared.file.FileId.{FileId};
ghost use Rattle.rdb_types.specs.declared.file.FileKind.TheVariants.{Ruj};
ghost use Rattle.rdb_outside.specs.Disk.{Pending, IsStable, OnlyReads};
ghost use Rattle.aij_journal.specs.declared.part.GroupLine.{GroupLine};
ghost use Rattle.line_moves.specs.stable_lines.Slots.{IsMember, Undo, named, ruj_file};
ghost use Rattle.line_moves.specs.stable_lines.Progress.{Open, Flight, Progress, begun, without, flying, landed, fallen};
ghost use Rattle.line_moves.specs.stable_lines.Facts.{Facts};
ghost use Rattle.line_moves.specs.Calls.{OnlyWrites};
ghost use Rattle.line_moves.specs.Lines.{ChangedLines};
ghost use Rattle.line_seat.specs.declared.commit.GroupPlace.{GroupPlace};
ghost use Rattle.line_seat.specs.declared.commit.CommitStage.TheVariants.{Changing};
ghost use Rattle.line_seat.specs.Seats.{IsSecured, SeatFacts, next_open, secured};
ghost use Rattle.line_seat.specs.Groups.{AreEntered, AreOfEntries, AreOfTransaction};
ghost use Rattle.line_seat.specs.Stages.{CommitFacts, progress_at};

use rdb_outside::Disk;

/// A transaction that has begun, has written nothing.
pub fn a_seat_begins<D: Disk>(disk: &D)
    ensures { (now : Progress) (member : ℕ) → Facts (Pending (D.view disk.now)) now
        → IsMember member → now.going member ≡ None
        → SeatFacts (D.view disk.now) (begun member now) member (next_open now) [] 0 }
{}

/// What a seat holds, it holds while others write.
pub fn a_seat_keeps<D: Disk>(before: &D, after: &D)
    requires tells { IsTrue (D.view before.now).tells }

    // Nothing was written: a read, or a barrier.
    ensures reads { (now : Progress) (member : ℕ) (transaction : Open) (all : List Undo) (stable : ℕ)
        → OnlyReads (D.view before.now) (D.view after.now)
        → SeatFacts (D.view before.now) now member transaction all stable
        → SeatFacts (D.view after.now) now member transaction all stable }

    // A slot of another file than a before-image journal.
    ensures aside { (now : Progress) (member : ℕ) (transaction : Open) (all : List Undo) (stable : ℕ)
        → (file : FileId) (slot : ℕ) → file.kind ≢ Ruj
        → OnlyWrites file slot (D.view before.now) (D.view after.now)
        → SeatFacts (D.view before.now) now member transaction all stable
        → SeatFacts (D.view after.now) now member transaction all stable }

    // An entry of another member.
    ensures beside { (now : Progress) (member : ℕ) (transaction : Open) (all : List Undo) (stable : ℕ)
        → (other slot : ℕ) → other ≢ member → 1 ≤ slot
        → OnlyWrites (ruj_file other) slot (D.view before.now) (D.view after.now)
        → SeatFacts (D.view before.now) now member transaction all stable
        → SeatFacts (D.view after.now) now member transaction all stable }

    // The header of another member, which names that member's open transaction or none.
    ensures headed { (now : Progress) (member : ℕ) (transaction : Open) (all : List Undo) (stable : ℕ)
        → (other : ℕ) (theirs : Open) → other ≢ member → now.going other ≡ Some theirs
        → OnlyWrites (ruj_file other) 0 (D.view before.now) (D.view after.now)
        → ((header : List ℕ) → Pending (D.view after.now) (ruj_file other) 0 header
        → Pending (D.view before.now) (ruj_file other) 0 header
        ⊎ (named header ≡ theirs.tsn.number))
        → SeatFacts (D.view before.now) now member transaction all stable
        → SeatFacts (D.view after.now) now member transaction all stable }
    ensures closed { (now : Progress) (member : ℕ) (transaction : Open) (all : List Undo) (stable : ℕ)
        → (other : ℕ) → other ≢ member
        → OnlyWrites (ruj_file other) 0 (D.view before.now) (D.view after.now)
        → ((header : List ℕ) → Pending (D.view after.now) (ruj_file other) 0 header
        → Pending (D.view before.now) (ruj_file other) 0 header ⊎ (named header ≡ 0))
        → SeatFacts (D.view before.now) now member transaction all stable
        → SeatFacts (D.view after.now) now member transaction all stable }
{}

/// Behind a barrier, whoever makes it, all entries of every seat are stable.
pub fn a_seat_gains<D: Disk>(before: &D, after: &D)
    requires tells { IsTrue (D.view before.now).tells }
    requires reads { OnlyReads (D.view before.now) (D.view after.now) }
    requires stable { IsStable (D.view after.now) }
    ensures { (now : Progress) (member : ℕ) (transaction : Open) (all : List Undo) (stable : ℕ)
        → SeatFacts (D.view before.now) now member transaction all stable
        → SeatFacts (D.view after.now) now member transaction all (length all) }
{}

/// What a seat holds, it holds behind the steps of others.
pub fn a_seat_goes_on<D: Disk>(disk: &D)
    // Another member begins, has its entries stable for its commit, or has ended as undone.
    ensures begins { (now : Progress) (member : ℕ) (transaction : Open) (all : List Undo) (stable : ℕ)
        → (other : ℕ) → member ≢ other
        → SeatFacts (D.view disk.now) now member transaction all stable
        → SeatFacts (D.view disk.now) (begun other now) member transaction all stable }
    ensures secures { (now : Progress) (member : ℕ) (transaction : Open) (all : List Undo) (stable : ℕ)
        → (other : ℕ) (theirs : Open) (entries : List Undo) → member ≢ other
        → now.going other ≡ Some theirs
        → SeatFacts (D.view disk.now) now member transaction all stable
        → SeatFacts (D.view disk.now) (secured other theirs entries now) member transaction all stable }
    ensures ends { (now : Progress) (member : ℕ) (transaction : Open) (all : List Undo) (stable : ℕ)
        → (other : ℕ) → member ≢ other
        → SeatFacts (D.view disk.now) now member transaction all stable
        → SeatFacts (D.view disk.now) (without other now) member transaction all stable }

    // The group of another takes off, which has no line of this seat's entries. It lands, or falls.
    ensures takes_off { (now : Progress) (member : ℕ) (transaction : Open) (all : List Undo) (stable : ℕ)
        → (flight : Flight) → flight.member ≢ member
        → ((i : ℕ) (undo : Undo) → slice_get all i ≡ Some undo → (k : ℕ) (line : GroupLine)
        → slice_get flight.group.lines k ≡ Some line → line.key ≢ undo.key)
        → SeatFacts (D.view disk.now) now member transaction all stable
        → SeatFacts (D.view disk.now) (flying flight now) member transaction all stable }
    ensures lands { (now : Progress) (member : ℕ) (transaction : Open) (all : List Undo) (stable : ℕ)
        → (flight : Flight) → now.flight ≡ Some flight
        → SeatFacts (D.view disk.now) now member transaction all stable
        → SeatFacts (D.view disk.now) (landed flight now) member transaction all stable }
    ensures falls { (now : Progress) (member : ℕ) (transaction : Open) (all : List Undo) (stable : ℕ)
        → SeatFacts (D.view disk.now) now member transaction all stable
        → SeatFacts (D.view disk.now) (fallen now) member transaction all stable }
{}

/// Where its entries are stable, a commit may begin to change pages.
pub fn lines_may_be_put<D: Disk>(disk: &D)
    ensures { (now : Progress) (member : ℕ) (transaction : Open) (all : List Undo)
        → (group : GroupPlace) (lines : ChangedLines) (flight : Flight)
        → IsSecured (D.view disk.now) now member transaction all
        → AreOfEntries transaction all lines → AreEntered (Pending (D.view disk.now)) lines
        → CommitFacts (Changing 0) (D.view disk.now) (secured member transaction all now) group lines flight }
{}

/// What a commit rests on at a stage, it rests on while others go on.
pub fn a_stage_stays<D: Disk>(before: &D, after: &D)
    requires tells { IsTrue (D.view before.now).tells }

    // Nothing was written: a read, or a barrier.
    ensures reads { (stage : _) (now : Progress) (member : ℕ) (transaction : Open)
        → (group : GroupPlace) (lines : ChangedLines) (flight : Flight)
        → now.going member ≡ Some transaction → AreOfTransaction transaction lines
        → OnlyReads (D.view before.now) (D.view after.now)
        → CommitFacts stage (D.view before.now) now group lines flight
        → CommitFacts stage (D.view after.now) now group lines flight }

    // An entry of another member.
    ensures beside { (stage : _) (now : Progress) (member : ℕ) (transaction : Open)
        → (group : GroupPlace) (lines : ChangedLines) (flight : Flight)
        → now.going member ≡ Some transaction → AreOfTransaction transaction lines
        → (other slot : ℕ) → other ≢ member → 1 ≤ slot
        → OnlyWrites (ruj_file other) slot (D.view before.now) (D.view after.now)
        → Facts (Pending (D.view after.now)) (progress_at stage now flight)
        → CommitFacts stage (D.view before.now) now group lines flight
        → CommitFacts stage (D.view after.now) now group lines flight }

    // The header of another member, which names that member's open transaction.
    ensures headed { (stage : _) (now : Progress) (member : ℕ) (transaction : Open)
        → (group : GroupPlace) (lines : ChangedLines) (flight : Flight)
        → now.going member ≡ Some transaction → AreOfTransaction transaction lines
        → (other : ℕ) (theirs : Open) → other ≢ member → now.going other ≡ Some theirs
        → OnlyWrites (ruj_file other) 0 (D.view before.now) (D.view after.now)
        → ((header : List ℕ) → Pending (D.view after.now) (ruj_file other) 0 header
        → Pending (D.view before.now) (ruj_file other) 0 header
        ⊎ (named header ≡ theirs.tsn.number))
        → Facts (Pending (D.view after.now)) (progress_at stage now flight)
        → CommitFacts stage (D.view before.now) now group lines flight
        → CommitFacts stage (D.view after.now) now group lines flight }
{}
