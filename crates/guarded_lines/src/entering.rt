// The owner of a page, on its space page.
ghost use Rattle.std.specs.Prelude.{◌≡◌, ◌-◌, ℕ, OnOk, IsErrOf, IsTrue};
ghost use Rattle.rdb_types.specs.declared.file.FileId.{FileId as File};
ghost use Rattle.rdb_outside.specs.Causes.{Rose};
ghost use Rattle.area_files.specs.Areas.{IsDataPage, space_page_of as space_of};
ghost use Rattle.space_pages.specs.Space.{IsSpace};
ghost use Rattle.stable_lines.specs.Slots.{area_file as file_named, IsAreaFile};
ghost use Rattle.guarded_root.specs.Guarded.{AddsOnly, RunsBehind};
ghost use Rattle.guarded_lines.specs.Laying.{IsArea, IsEntrySlot, Enters};

use area_files::{slot_of, space_page_of};
use guarded_root::write_guarded;
use line_moves::{Place, area_file};
use line_store::Fault;
use rdb_outside::Disk;
use space_pages::{check, owner, set};

/// Says on the space page that the logical area owns the page. Nothing is written where it says so already.
pub(crate) fn enter_owner<D: Disk>(disk: &mut D, place: Place, area: u32) -> Result<(), Fault>
    requires file { IsAreaFile place.file }
    requires page { IsDataPage place.page }
    ensures failed { IsErrOf result Fault.Failed
        → Rose (D.view disk.old).faults (D.view disk.new).faults }
    ensures bad { (file : File) (slot : ℕ) → IsErrOf result (Fault.Bad file slot)
        → IsTrue (D.view disk.old).tells
        → IsSpace ((D.view disk.old).content (file_named place.file) (space_of place.page - 1))
        (space_of place.page) → ⊥ }
    ensures entered { OnOk result (IsTrue (D.view disk.old).tells
        → Enters place area (D.view disk.old).content (D.view disk.new).content) }

    // Whatever it answers.
    ensures runs { RunsBehind IsArea (D.view disk.old) (D.view disk.new) }
    ensures adds { IsTrue (D.view disk.old).tells
        → AddsOnly (IsEntrySlot (D.view disk.old).content place area) (D.view disk.old) (D.view disk.new) }
{
    let file = area_file(place.file);
    let space_page = space_page_of(place.page);
    let slot = slot_of(space_page);
    let mut bytes = [0; 1024];
    disk.read(file, slot, &mut bytes)?;
    let Ok(()) = check(&bytes, space_page) else {
        return Err(Fault::Bad(file, slot));
    };
    if owner(&bytes, place.page) == area {
        return Ok(());
    }
    set(&mut bytes, place.page, area, 0);
    write_guarded(disk, file, slot, &bytes)?;
    Ok(())
}
