// Before-images.
ghost use Rattle.std.specs.Prelude.{◌≡◌, ◌-◌, ◌+◌, ◌≤◌, ◌<◌, ◌^◌, ◌++◌, ◌∷◌, [], ℕ, List, length, Some, OnOk, IsErrOf, IsTrue};
ghost use Rattle.rdb_types.specs.declared.file.FileId.{FileId as File};
ghost use Rattle.rdb_page.specs.Whole.{IsPageOf};
ghost use Rattle.rdb_outside.specs.Causes.{Rose};
ghost use Rattle.line_opening.specs.stable_lines.Slots.{area_file, ruj_file, line_at, named, Undo};
ghost use Rattle.line_opening.specs.stable_lines.Image.{IsNoneOf};
ghost use Rattle.line_opening.specs.stable_lines.Progress.{Open};
ghost use Rattle.line_opening.specs.line_moves.Calls.{OnlyWrites};
ghost use Rattle.line_opening.specs.line_moves.Changes.{IsPlaceOf};
ghost use Rattle.disk_seats.specs.Ledgers.{Ledger, changing, broken, stands_as};
ghost use Rattle.disk_seats.specs.Members.{LedgerFacts, IsLeftTo};

use line_opening::Place;
use line_seat::journal_line;
use line_store::Fault;
use rdb_outside::Disk;
use rdb_types::{Dbkey, Tsn};

/// Journals a line as it stands, behind the before-images that the member's transaction has. No barrier is made: behind the next one, whoever makes it, it is stable.
pub fn journal<D: Disk>(
    disk: &mut D,
    member: u32,
    tsn: Tsn,
    index: u32,
    key: Dbkey,
    place: Place,
) -> Result<(), Fault>
    requires tsn { tsn.number < 2 ^ 62 }
    requires place { IsPlaceOf key place }
    ensures writes { OnlyWrites (ruj_file member) index (D.view disk.old) (D.view disk.new) }
    ensures failed { IsErrOf result Fault.Failed
        → Rose (D.view disk.old).faults (D.view disk.new).faults }
    ensures bad { (file : File) (slot : ℕ) → IsErrOf result (Fault.Bad file slot)
        → IsTrue (D.view disk.old).tells
        → IsPageOf place.file place.page
        ((D.view disk.old).content (area_file place.file) (place.page - 1)) → ⊥ }

    // Whatever it answers, the ledger stays but for this member, who can be rolled back.
    ensures keeps { IsTrue (D.view disk.old).tells
        → (ledger : Ledger) (transaction : Open) (all : List Undo) (stable : ℕ)
        → LedgerFacts (D.view disk.old) ledger → ledger.standing member ≡ changing all stable
        → ledger.base.going member ≡ Some transaction → tsn ≡ transaction.tsn
        → index ≡ length all + 1
        → LedgerFacts (D.view disk.new) (stands_as member broken ledger) }

    // It has one before-image more, of a line of which nobody has one.
    ensures journalled { OnOk result (IsTrue (D.view disk.old).tells
        → (ledger : Ledger) (transaction : Open) (all : List Undo) (stable : ℕ)
        → LedgerFacts (D.view disk.old) ledger → ledger.standing member ≡ changing all stable
        → ledger.base.going member ≡ Some transaction → tsn ≡ transaction.tsn
        → index ≡ length all + 1
        → named ((D.view disk.old).content (ruj_file member) 0) ≡ transaction.tsn.number
        → IsNoneOf key all → IsLeftTo member key ledger.standing
        → key.page ≤ ledger.base.limits.pages
        → let before = line_at (D.view disk.old).content key in
        let more = all ++ (record { key = key; before = before }) ∷ [] in
        LedgerFacts (D.view disk.new) (stands_as member (changing more stable) ledger)) }
{
    journal_line(disk, member, tsn, index, key, place)
}
