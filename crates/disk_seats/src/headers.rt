// The headers of the before-image journals.
ghost use Rattle.std.specs.Prelude.{◌≡◌, ◌≤◌, ◌<◌, ◌^◌, [], Some, OnOk, IsTrue};
ghost use Rattle.rdb_outside.specs.Disk.{Counts};
ghost use Rattle.line_opening.specs.stable_lines.Slots.{named, ruj_file};
ghost use Rattle.line_opening.specs.stable_lines.Progress.{Open};
ghost use Rattle.line_opening.specs.line_moves.Calls.{OnlyWrites};
ghost use Rattle.disk_seats.specs.Ledgers.{Ledger, resting, changing};
ghost use Rattle.disk_seats.specs.Members.{LedgerFacts};

use line_opening::{close_header, open_header};
use rdb_outside::{Disk, Failed};
use rdb_types::Tsn;

/// Writes the header that names a member's transaction, before its first before-image.
pub fn name_header<D: Disk>(disk: &mut D, member: u32, tsn: Tsn) -> Result<(), Failed>
    requires first { 1 ≤ tsn.number }
    requires last { tsn.number < 2 ^ 62 }
    ensures counts { Counts (D.view disk.old) (D.view disk.new) result }
    ensures writes { OnlyWrites (ruj_file member) 0 (D.view disk.old) (D.view disk.new) }
    ensures names { OnOk result (IsTrue (D.view disk.old).tells
        → named ((D.view disk.new).content (ruj_file member) 0) ≡ tsn.number) }

    // Whatever it answers, the ledger stays.
    ensures keeps { IsTrue (D.view disk.old).tells → (ledger : Ledger) (transaction : Open)
        → LedgerFacts (D.view disk.old) ledger → ledger.standing member ≡ changing [] 0
        → ledger.base.going member ≡ Some transaction → tsn ≡ transaction.tsn
        → LedgerFacts (D.view disk.new) ledger }
{
    open_header(disk, member, tsn)
}

/// Writes the header that names none, of a member without an open transaction.
pub fn close<D: Disk>(disk: &mut D, member: u32) -> Result<(), Failed>
    ensures counts { Counts (D.view disk.old) (D.view disk.new) result }
    ensures writes { OnlyWrites (ruj_file member) 0 (D.view disk.old) (D.view disk.new) }
    ensures names { OnOk result (IsTrue (D.view disk.old).tells
        → named ((D.view disk.new).content (ruj_file member) 0) ≡ 0) }

    // Whatever it answers, the ledger stays.
    ensures keeps { IsTrue (D.view disk.old).tells → (ledger : Ledger)
        → LedgerFacts (D.view disk.old) ledger → ledger.standing member ≡ resting
        → 1 ≤ ledger.base.next_tsn → LedgerFacts (D.view disk.new) ledger }
{
    close_header(disk, member)
}
