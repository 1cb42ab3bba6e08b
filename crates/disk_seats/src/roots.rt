// The root.
ghost use Rattle.std.specs.Prelude.{◌≡◌, ◌≤◌, ◌⊎◌, ℕ, List, OnOk, IsTrue};
ghost use Rattle.rdb_outside.specs.Disk.{Counts, Pending};
ghost use Rattle.root_file.specs.Root.{IsAllowed, IsRoot};
ghost use Rattle.new_database.specs.Maker.{root_file};
ghost use Rattle.line_opening.specs.line_moves.Calls.{OnlyWrites};
ghost use Rattle.disk_seats.specs.Ledgers.{Ledger};
ghost use Rattle.disk_seats.specs.Members.{LedgerFacts};

use line_opening::write_root;
use rdb_outside::{Disk, Failed};
use root_file::Root;

/// Writes a root with a ceiling above all transaction numbers that were drawn. Numbers below that ceiling may be drawn behind the next barrier.
pub fn raise_ceiling<D: Disk>(disk: &mut D, root: &Root) -> Result<(), Failed>
    requires allowed { IsAllowed root.now }
    requires whole { root.now.state ≡ 1 }
    ensures counts { Counts (D.view disk.old) (D.view disk.new) result }
    ensures writes { OnlyWrites root_file 0 (D.view disk.old) (D.view disk.new) }
    ensures stands { OnOk result (IsTrue (D.view disk.old).tells
        → IsRoot ((D.view disk.new).content root_file 0) root.now) }

    // Each root that a crash may leave then is one of those before, or this one.
    ensures roots { IsTrue (D.view disk.old).tells → (content : List ℕ)
        → Pending (D.view disk.new) root_file 0 content
        → Pending (D.view disk.old) root_file 0 content ⊎ IsRoot content root.now }

    // Whatever it answers, the ledger stays.
    ensures keeps { IsTrue (D.view disk.old).tells → (ledger : Ledger)
        → LedgerFacts (D.view disk.old) ledger → root.now.limits ≡ ledger.base.limits
        → ledger.base.next_tsn ≤ root.now.ceiling → LedgerFacts (D.view disk.new) ledger }
{
    write_root(disk, root)
}
