// Barriers.
ghost use Rattle.std.specs.Prelude.{OnOk, IsTrue};
ghost use Rattle.rdb_outside.specs.Disk.{Counts, IsStable, OnlyReads};
ghost use Rattle.disk_seats.specs.Ledgers.{Ledger, all_stable};
ghost use Rattle.disk_seats.specs.Members.{LedgerFacts};

use line_opening::make_stable;
use rdb_outside::{Disk, Failed};

/// Makes all that was written stable, whoever wrote it.
pub fn settle<D: Disk>(disk: &mut D) -> Result<(), Failed>
    ensures counts { Counts (D.view disk.old) (D.view disk.new) result }
    ensures reads { OnlyReads (D.view disk.old) (D.view disk.new) }
    ensures stable { OnOk result (IsTrue (D.view disk.old).tells → IsStable (D.view disk.new)) }

    // Whatever it answers, the ledger stays.
    ensures keeps { IsTrue (D.view disk.old).tells → (ledger : Ledger)
        → LedgerFacts (D.view disk.old) ledger → LedgerFacts (D.view disk.new) ledger }

    // All before-images of all members are stable.
    ensures gains { OnOk result (IsTrue (D.view disk.old).tells → (ledger : Ledger)
        → LedgerFacts (D.view disk.old) ledger → LedgerFacts (D.view disk.new) (all_stable ledger)) }
{
    make_stable(disk)
}
