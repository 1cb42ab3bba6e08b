// The owners of the pages of a commit.
ghost use Rattle.std.specs.Prelude.{◌≡◌, ◌≤◌, ◌-◌, ◌+◌, ℕ, Some, None, slice_get, OnOk, IsErrOf, IsTrue};
ghost use Rattle.rdb_types.specs.declared.file.FileId.{FileId as File};
ghost use Rattle.rdb_outside.specs.Causes.{Rose};
ghost use Rattle.rdb_outside.specs.Disk.{Pending};
ghost use Rattle.area_files.specs.Areas.{IsDataPage, space_page_of};
ghost use Rattle.space_pages.specs.Space.{IsSpace};
ghost use Rattle.line_opening.specs.stable_lines.Slots.{area_file, IsAreaFile};
ghost use Rattle.line_opening.specs.line_moves.Calls.{OnlyWrites};
ghost use Rattle.line_opening.specs.line_moves.declared.places.Place.{Place as Spot};
ghost use Rattle.line_opening.specs.line_moves.Classes.{HaveTheirClasses, KeepsOwners};
ghost use Rattle.line_opening.specs.line_moves.Changes.{IsForArea, IsPlaceOf, KeepsLines};
ghost use Rattle.line_opening.specs.line_moves.Lines.{ChangedLines};
ghost use Rattle.disk_seats.specs.Ledgers.{Ledger};
ghost use Rattle.disk_seats.specs.Members.{LedgerFacts, AreOwned, IsOneArea};

use line_opening::{Place, enter_page};
use line_store::Fault;
use rdb_outside::Disk;

/// Says on its space page that the logical area owns the page, before the barrier that begins a commit. Nothing is written where it says so already.
pub fn enter<D: Disk>(disk: &mut D, place: Place, area: u32) -> Result<(), Fault>
    requires file { IsAreaFile place.file }
    requires page { IsDataPage place.page }
    ensures writes { OnlyWrites (area_file place.file) (space_page_of place.page - 1)
        (D.view disk.old) (D.view disk.new) }
    ensures failed { IsErrOf result Fault.Failed
        → Rose (D.view disk.old).faults (D.view disk.new).faults }
    ensures bad { (file : File) (slot : ℕ) → IsErrOf result (Fault.Bad file slot)
        → IsTrue (D.view disk.old).tells
        → IsSpace ((D.view disk.old).content (area_file place.file) (space_page_of place.page - 1))
        (space_page_of place.page) → ⊥ }

    // One line more lies on a page with its owner.
    ensures owned { OnOk result (IsTrue (D.view disk.old).tells → (lines : ChangedLines) (at : ℕ) (line : _)
        → slice_get lines at ≡ Some line → IsPlaceOf line.0 place → area ≡ line.0.area
        → IsOneArea lines → AreOwned (D.view disk.old).content lines at
        → AreOwned (D.view disk.new).content lines (at + 1)) }

    // Whatever it answers, no line is another.
    ensures lines { IsTrue (D.view disk.old).tells → (ledger : Ledger)
        → LedgerFacts (D.view disk.old) ledger
        → KeepsLines (D.view disk.old).content (D.view disk.new).content }

    // Whatever it answers, pages have the classes of their areas where they had.
    ensures classes { IsTrue (D.view disk.old).tells → (classes : ℕ → ℕ)
        → HaveTheirClasses classes (Pending (D.view disk.old))
        → HaveTheirClasses classes (Pending (D.view disk.new)) }

    // Whatever it answers, a page that may have no other area's owner has none.
    ensures owners { IsTrue (D.view disk.old).tells → (there : Spot) (area : ℕ) → IsDataPage there.page
        → KeepsOwners (Pending (D.view disk.old)) (Pending (D.view disk.new)) there area }

    // Whatever it answers, the ledger stays, where nobody commits and no other area has the page.
    ensures keeps { IsTrue (D.view disk.old).tells → (ledger : Ledger)
        → LedgerFacts (D.view disk.old) ledger → ledger.commit ≡ None
        → IsForArea (Pending (D.view disk.old)) place area
        → place.page ≤ ledger.base.limits.pages → LedgerFacts (D.view disk.new) ledger }
{
    enter_page(disk, place, area)
}
