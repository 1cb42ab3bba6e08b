// What members begin and end without a device call.
ghost use Rattle.std.specs.Prelude.{◌≡◌, ◌≢◌, ◌≤◌, ◌<◌, ℕ, List, length, None, Some};
ghost use Rattle.rdb_outside.specs.Disk.{Pending, IsStable};
ghost use Rattle.root_file.specs.declared.Root.{Root};
ghost use Rattle.root_file.specs.Root.{IsRoot};
ghost use Rattle.new_database.specs.Maker.{root_file};
ghost use Rattle.line_opening.specs.stable_lines.Slots.{IsMember, Undo};
ghost use Rattle.line_opening.specs.stable_lines.Progress.{Open, Flight, Progress};
ghost use Rattle.line_opening.specs.stable_lines.Facts.{Facts};
ghost use Rattle.line_opening.specs.line_moves.Lines.{ChangedLines};
ghost use Rattle.line_seat.specs.declared.commit.GroupPlace.{GroupPlace};
ghost use Rattle.line_seat.specs.Seats.{secured};
ghost use Rattle.line_seat.specs.Groups.{AreEntered, AreOfEntries, IsCommitting};
ghost use Rattle.disk_seats.specs.Ledgers.{Ledger, resting, changing, new_ledger, marked_at, begun_by, ended_by, new_commit, taken_up};
ghost use Rattle.disk_seats.specs.Members.{LedgerFacts, MayEnd, AreOwned};

use rdb_outside::Disk;

/// The ledger of a database at whose opening nothing is open.
pub fn a_ledger_begins<D: Disk>(disk: &D)
    ensures { (base : Progress) → Facts (Pending (D.view disk.now)) base
        → ((member : ℕ) → base.going member ≡ None) → base.flight ≡ None → base.former ≡ None
        → ((content : List ℕ) (root : Root) → Pending (D.view disk.now) root_file 0 content
        → IsRoot content root → root.state ≢ 3)
        → LedgerFacts (D.view disk.now) (new_ledger base (D.view disk.now).moment) }
{}

/// A commit of no lines makes no device call: what is committed was reached once more.
pub fn a_commit_of_nothing<D: Disk>(disk: &D)
    ensures { (ledger : Ledger) → LedgerFacts (D.view disk.now) ledger
        → LedgerFacts (D.view disk.now) (marked_at (D.view disk.now).moment ledger) }
{}

/// A member draws the next transaction number, where the ceiling of each root that a crash may leave is above.
pub fn a_member_begins<D: Disk>(disk: &D)
    ensures { (ledger : Ledger) (member : ℕ) → LedgerFacts (D.view disk.now) ledger → IsMember member
        → ledger.standing member ≡ resting → 1 ≤ ledger.base.next_tsn
        → ((content : List ℕ) (root : Root) → Pending (D.view disk.now) root_file 0 content
        → IsRoot content root → ledger.base.next_tsn < root.ceiling)
        → LedgerFacts (D.view disk.now) (begun_by member ledger) }
{}

/// A member's transaction of which no page was written ends as undone. Its header is then to be closed.
pub fn a_member_ends<D: Disk>(disk: &D)
    ensures { (ledger : Ledger) (member : ℕ) → LedgerFacts (D.view disk.now) ledger
        → MayEnd (ledger.standing member) → LedgerFacts (D.view disk.now) (ended_by member ledger) }
{}

/// A member whose before-images are stable begins to commit, while no other commits.
pub fn a_commit_begins<D: Disk>(disk: &D)
    ensures { (ledger : Ledger) (member : ℕ) (transaction : Open) (all : List Undo) (stable : ℕ)
        → (place : GroupPlace) (lines : ChangedLines) (classes : List ℕ) (flight : Flight)
        → LedgerFacts (D.view disk.now) ledger → ledger.standing member ≡ changing all stable
        → length all ≤ stable → ledger.commit ≡ None
        → ledger.base.going member ≡ Some transaction
        → IsCommitting (secured member transaction all ledger.base) member
        (record { tsn = transaction.tsn; entries = all }) place lines classes flight
        → AreOfEntries transaction all lines → AreEntered (Pending (D.view disk.now)) lines
        → LedgerFacts (D.view disk.now)
        (taken_up (new_commit member transaction all place lines classes flight) transaction ledger) }
{}

/// Behind a barrier the owners that the space pages say of a commit's pages stand in all that a crash may leave.
pub fn pages_are_entered<D: Disk>(disk: &D)
    requires { IsStable (D.view disk.now) }
    ensures { (lines : ChangedLines) → AreOwned (D.view disk.now).content lines (length lines)
        → AreEntered (Pending (D.view disk.now)) lines }
{}
