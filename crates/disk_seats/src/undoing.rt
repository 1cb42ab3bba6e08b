// The before-images of a commit that is given up, put back.
ghost use Rattle.std.specs.Prelude.{◌≡◌, ◌≤◌, ◌<◌, ◌+◌, ℕ, List, length, Some, IfOk, IsErrOf, IsTrue};
ghost use Rattle.rdb_types.specs.declared.file.FileId.{FileId as File};
ghost use Rattle.rdb_outside.specs.Causes.{Rose};
ghost use Rattle.rdb_outside.specs.Disk.{Pending};
ghost use Rattle.area_files.specs.Areas.{IsDataPage};
ghost use Rattle.line_opening.specs.stable_lines.Slots.{area_file, IsAreaFile, Undo};
ghost use Rattle.line_opening.specs.stable_lines.Progress.{Open};
ghost use Rattle.line_opening.specs.line_moves.Calls.{OnlyWrites};
ghost use Rattle.line_opening.specs.line_moves.declared.places.Place.{Place as Spot};
ghost use Rattle.line_opening.specs.line_moves.Classes.{HaveTheirClasses, KeepsOwners};
ghost use Rattle.line_opening.specs.Undoing.{PutsBack};
ghost use Rattle.disk_seats.specs.Ledgers.{Ledger, undoing, stands_as};
ghost use Rattle.disk_seats.specs.Members.{LedgerFacts};

use line_opening::undo_next;
use line_store::Fault;
use rdb_outside::Disk;
use rdb_types::Tsn;

/// Puts before-images of a member back, the last one first, up to the first whose page is written. The answer is how many are left.
pub fn undo<D: Disk>(
    disk: &mut D,
    pages: u32,
    member: u32,
    tsn: Tsn,
    left: u32,
    page: &mut [u8],
) -> Result<u32, Fault>
    requires size { length page.old ≡ 1024 }
    requires some { 1 ≤ left }
    ensures size { length page.new ≡ 1024 }
    ensures writes { (file : ℕ) × (slot : ℕ) × IsDataPage (slot + 1)
        × OnlyWrites (area_file file) slot (D.view disk.old) (D.view disk.new) }
    ensures failed { IsErrOf result Fault.Failed
        → Rose (D.view disk.old).faults (D.view disk.new).faults }
    ensures fewer { IfOk result (λ rest. rest < left) }

    // No page is refused.
    ensures bad { (file : File) (slot : ℕ) → IsErrOf result (Fault.Bad file slot)
        → IsTrue (D.view disk.old).tells
        → (ledger : Ledger) (transaction : Open) (all : List Undo)
        → LedgerFacts (D.view disk.old) ledger → ledger.standing member ≡ undoing all left
        → ledger.base.going member ≡ Some transaction → tsn ≡ transaction.tsn
        → pages ≡ ledger.base.limits.pages → ⊥ }

    // Whatever it answers, each line is as it was, or its before-image again.
    ensures restores { IsTrue (D.view disk.old).tells
        → (ledger : Ledger) (transaction : Open) (all : List Undo)
        → LedgerFacts (D.view disk.old) ledger → ledger.standing member ≡ undoing all left
        → ledger.base.going member ≡ Some transaction → tsn ≡ transaction.tsn
        → pages ≡ ledger.base.limits.pages
        → PutsBack transaction (D.view disk.old).content (D.view disk.new).content }

    // Whatever it answers, pages have the classes of their areas where they had.
    ensures classes { IsTrue (D.view disk.old).tells → (ledger : Ledger)
        → LedgerFacts (D.view disk.old) ledger → (classes : ℕ → ℕ)
        → HaveTheirClasses classes (Pending (D.view disk.old))
        → HaveTheirClasses classes (Pending (D.view disk.new)) }

    // Whatever it answers, a page that may have no other area's owner has none.
    ensures owners { IsTrue (D.view disk.old).tells → (ledger : Ledger)
        → LedgerFacts (D.view disk.old) ledger → (there : Spot) (area : ℕ)
        → IsAreaFile there.file → IsDataPage there.page
        → KeepsOwners (Pending (D.view disk.old)) (Pending (D.view disk.new)) there area }

    // Whatever it answers, the ledger stays, and it may be begun again.
    ensures keeps { IsTrue (D.view disk.old).tells
        → (ledger : Ledger) (transaction : Open) (all : List Undo)
        → LedgerFacts (D.view disk.old) ledger → ledger.standing member ≡ undoing all left
        → ledger.base.going member ≡ Some transaction → tsn ≡ transaction.tsn
        → pages ≡ ledger.base.limits.pages
        → LedgerFacts (D.view disk.new) (stands_as member (undoing all (length all)) ledger) }

    // So many are left.
    ensures undone { IfOk result (λ rest. IsTrue (D.view disk.old).tells
        → (ledger : Ledger) (transaction : Open) (all : List Undo)
        → LedgerFacts (D.view disk.old) ledger → ledger.standing member ≡ undoing all left
        → ledger.base.going member ≡ Some transaction → tsn ≡ transaction.tsn
        → pages ≡ ledger.base.limits.pages
        → LedgerFacts (D.view disk.new) (stands_as member (undoing all rest) ledger)) }
{
    undo_next(disk, pages, member, tsn, left, page)
}
