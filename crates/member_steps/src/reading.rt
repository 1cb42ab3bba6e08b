// What is committed, by what reads give.
ghost use Rattle.std.specs.Prelude.{◌≡◌, ◌+◌, ℕ, Some, slice_get, IsTrue};
ghost use Rattle.rdb_types.specs.declared.keys.Dbkey.{Dbkey};
ghost use Rattle.ruj_journal.specs.Entry.{IsEntry};
ghost use Rattle.line_view.specs.Knowledge.{line_in};
ghost use Rattle.line_versions.specs.Lines.{shown};
ghost use Rattle.disk_seats.specs.stable_lines.Slots.{ruj_file, line_at, entry_at};
ghost use Rattle.disk_seats.specs.stable_lines.Progress.{Open};
ghost use Rattle.disk_seats.specs.stable_lines.Facts.{IsNotOpen};
ghost use Rattle.disk_seats.specs.Ledgers.{Ledger};
ghost use Rattle.disk_seats.specs.Members.{LedgerFacts};
ghost use Rattle.rdb_outside.specs.Disk.{Image, LeftNow};
ghost use Rattle.member_steps.specs.Standing.{IsBefore, MayBeLeft};

use rdb_outside::Disk;

/// The committed line of a key, by what reads give: the line as it stands, where it bears no open transaction; else the before-image of it in the journal of the member whose transaction it bears, which commits or is being undone.
pub fn lines_that_stand<D: Disk>(disk: &D)
    requires { IsTrue (D.view disk.now).tells }
    ensures committed { (ledger : Ledger) (key : Dbkey) → LedgerFacts (D.view disk.now) ledger
        → IsNotOpen ledger.base (line_at (D.view disk.now).content key).tsn.number
        → shown (line_at (D.view disk.now).content key) ≡ line_in key ledger.base.lines }
    ensures changed { (ledger : Ledger) (key : Dbkey) (member : ℕ) (transaction : Open)
        → LedgerFacts (D.view disk.now) ledger
        → ledger.base.going member ≡ Some transaction
        → (line_at (D.view disk.now).content key).tsn.number ≡ transaction.tsn.number
        → IsBefore (D.view disk.now).content ledger.base.lines member transaction key }
{}

/// What a crash may leave is an image that opening can start from, which stands for what is committed, or for that with the commit that is under way.
pub fn what_a_crash_leaves<D: Disk>(disk: &D)
    ensures { (ledger : Ledger) (image : Image) → LedgerFacts (D.view disk.now) ledger
        → LeftNow (D.view disk.now) image → MayBeLeft ledger image }
{}
