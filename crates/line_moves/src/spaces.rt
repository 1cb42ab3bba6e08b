// The owners of pages, on their space pages.
ghost use Rattle.std.specs.Prelude.{◌≡◌, ◌≤◌, ◌-◌, ℕ, OnOk, IsErrOf, IsTrue};
ghost use Rattle.rdb_types.specs.declared.file.FileId.{FileId as File};
ghost use Rattle.line_store.specs.rdb_outside.Causes.{Rose};
ghost use Rattle.line_store.specs.rdb_outside.Disk.{Pending};
ghost use Rattle.line_store.specs.area_files.Areas.{IsDataPage, space_page_of as space_of};
ghost use Rattle.stable_lines.specs.space_pages.Space.{IsSpace, IsBeside, owner_of};
ghost use Rattle.stable_lines.specs.Slots.{area_file as file_named, IsAreaFile};
ghost use Rattle.stable_lines.specs.Progress.{Progress};
ghost use Rattle.stable_lines.specs.Facts.{Facts};
ghost use Rattle.line_moves.specs.Calls.{OnlyWrites};
ghost use Rattle.line_moves.specs.Changes.{IsForArea, KeepsLines};

use crate::places::{Place, area_file};
use line_store::{Disk, Fault, slot_of, space_page_of};
use stable_lines::{check, owner, set};

/// Says on the space page that the logical area owns the page. Nothing is written where it says so already.
pub fn enter_page<D: Disk>(disk: &mut D, place: Place, area: u32) -> Result<(), Fault>
    requires file { IsAreaFile place.file }
    requires page { IsDataPage place.page }
    ensures writes { OnlyWrites (file_named place.file) (space_of place.page - 1)
        (D.view disk.old) (D.view disk.new) }
    ensures failed { IsErrOf result Fault.Failed
        → Rose (D.view disk.old).faults (D.view disk.new).faults }
    ensures bad { (file : File) (slot : ℕ) → IsErrOf result (Fault.Bad file slot)
        → IsTrue (D.view disk.old).tells
        → IsSpace ((D.view disk.old).content (file_named place.file) (space_of place.page - 1))
        (space_of place.page) → ⊥ }
    ensures entered { OnOk result (IsTrue (D.view disk.old).tells
        → owner_of place.page
        ((D.view disk.new).content (file_named place.file) (space_of place.page - 1)) ≡ area) }

    // Whatever it answers, the other pages have their owners, and no line is another.
    ensures beside { IsTrue (D.view disk.old).tells → (other : ℕ) → IsBeside place.page other
        → owner_of other ((D.view disk.new).content (file_named place.file) (space_of place.page - 1))
        ≡ owner_of other
        ((D.view disk.old).content (file_named place.file) (space_of place.page - 1)) }
    ensures lines { IsTrue (D.view disk.old).tells → (now : Progress)
        → Facts (Pending (D.view disk.old)) now
        → KeepsLines (D.view disk.old).content (D.view disk.new).content }

    // Whatever it answers, the facts stay, where no other area has the page.
    ensures keeps { IsTrue (D.view disk.old).tells → (now : Progress)
        → Facts (Pending (D.view disk.old)) now
        → IsForArea (Pending (D.view disk.old)) place area → place.page ≤ now.limits.pages
        → Facts (Pending (D.view disk.new)) now }
{
    let file = area_file(place.file);
    let space_page = space_page_of(place.page);
    let slot = slot_of(space_page);
    let mut bytes = [0; 1024];
    disk.read(file, slot, &mut bytes)?;
    if check(&bytes, space_page).is_err() {
        return Err(Fault::Bad(file, slot));
    }
    if owner(&bytes, place.page) == area {
        return Ok(());
    }
    set(&mut bytes, place.page, area, 0);
    disk.write(file, slot, &bytes)?;
    Ok(())
}
