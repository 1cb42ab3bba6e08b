// What becomes of the commit of a member that died.
ghost use Rattle.std.specs.Prelude.{◌≡◌, ◌≢◌, ◌+◌, ℕ, List, true, false, length, Some, IsTrue};
ghost use Rattle.rdb_outside.specs.Disk.{IsStable};
ghost use Rattle.journal_scan.specs.Standing.{what_stands};
ghost use Rattle.new_database.specs.Maker.{aij_file};
ghost use Rattle.line_opening.specs.stable_lines.Slots.{Undo};
ghost use Rattle.line_opening.specs.stable_lines.Journal.{commit_of};
ghost use Rattle.disk_seats.specs.Ledgers.{Ledger, Commit, undoing, flies, given_up, landed_at, ended_by};
ghost use Rattle.disk_seats.specs.Members.{LedgerFacts};

use rdb_outside::Disk;

/// A commit whose group doesn't fly is given up: its before-images are to be put back.
pub fn a_commit_is_given_up<D: Disk>(disk: &D)
    ensures { (ledger : Ledger) (commit : Commit) → LedgerFacts (D.view disk.now) ledger
        → ledger.commit ≡ Some commit → flies commit.stage ≡ false
        → LedgerFacts (D.view disk.now) (given_up commit ledger) }
{}

/// Behind a barrier what stands in the commit slot of a group that flies tells whether it is committed.
pub fn a_commit_is_judged<D: Disk>(disk: &D)
    requires tells { IsTrue (D.view disk.now).tells }
    requires stable { IsStable (D.view disk.now) }
    ensures stands { (ledger : Ledger) (commit : Commit) → LedgerFacts (D.view disk.now) ledger
        → ledger.commit ≡ Some commit → flies commit.stage ≡ true
        → length commit.classes ≡ length commit.lines
        → what_stands ((D.view disk.now).content aij_file (commit.place.slot + length commit.lines))
        ≡ commit_of commit.flight.group
        → LedgerFacts (D.view disk.now) (landed_at (D.view disk.now).moment commit ledger) }
    ensures lost { (ledger : Ledger) (commit : Commit) → LedgerFacts (D.view disk.now) ledger
        → ledger.commit ≡ Some commit → flies commit.stage ≡ true
        → length commit.classes ≡ length commit.lines
        → what_stands ((D.view disk.now).content aij_file (commit.place.slot + length commit.lines))
        ≢ commit_of commit.flight.group
        → LedgerFacts (D.view disk.now) (given_up commit ledger) }
{}

/// Behind a barrier a member whose before-images are all put back has ended as undone. Its header is then to be closed.
pub fn a_member_is_undone<D: Disk>(disk: &D)
    requires { IsStable (D.view disk.now) }
    ensures { (ledger : Ledger) (member : ℕ) (all : List Undo) → LedgerFacts (D.view disk.now) ledger
        → ledger.standing member ≡ undoing all 0
        → LedgerFacts (D.view disk.now) (ended_by member ledger) }
{}
