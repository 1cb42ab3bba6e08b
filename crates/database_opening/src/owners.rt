// Which logical area owns each page.
ghost use Rattle.std.specs.Prelude.{◌≡◌, ◌≤◌, ◌-◌, ◌+◌, ℕ, length, IfOk, OnOk, IsErrOf, IsTrue};
ghost use Rattle.rdb_types.specs.declared.file.FileId.{FileId as File};
ghost use Rattle.rdb_outside.specs.Causes.{Rose};
ghost use Rattle.rdb_outside.specs.Disk.{OnlyReads};
ghost use Rattle.area_files.specs.Areas.{IsPage, IsSpacePage, IsDataPage};
ghost use Rattle.space_pages.specs.Space.{IsSpace, owner_of};
ghost use Rattle.line_opening.specs.stable_lines.Slots.{area_file as area_named, IsAreaFile};
ghost use Rattle.database_opening.specs.Owners.{AreOwners};

use area_files::{is_space_page, slot_of};
use line_opening::{OpeningFault, area_file};
use rdb_outside::Disk;
use space_pages::{check, owner};
use std::alloc::Global;

// Reads a space page, which nobody owns.
fn read_space<D: Disk>(
    disk: &mut D,
    file: u32,
    page: u32,
    spam: &mut [u8],
) -> Result<u32, OpeningFault>
    requires page { IsPage page }
    requires size { length spam.old ≡ 1024 }
    ensures size { length spam.new ≡ 1024 }
    ensures reads { OnlyReads (D.view disk.old) (D.view disk.new) }
    ensures failed { IsErrOf result OpeningFault.Failed
        → Rose (D.view disk.old).faults (D.view disk.new).faults }
    ensures none { IfOk result (λ owner. owner ≡ 0) }
    ensures read { OnOk result (IsTrue (D.view disk.old).tells
        → spam.new ≡ (D.view disk.old).content (area_named file) (page - 1)) }
    ensures bad { (f : File) (slot : ℕ) → IsErrOf result (OpeningFault.Bad f slot)
        → IsTrue (D.view disk.old).tells
        → IsSpace ((D.view disk.old).content (area_named file) (page - 1)) page → ⊥ }
{
    let area = area_file(file);
    let slot = slot_of(page);
    disk.read(area, slot, spam)?;
    match check(spam, page) {
        Ok(()) => Ok(0),
        Err(_) => Err(OpeningFault::Bad(area, slot)),
    }
}

// The owner of a page by the space page that was read last, which is left in `spam`. Of a space page it is 0.
fn next_owner<D: Disk>(
    disk: &mut D,
    file: u32,
    page: u32,
    spam: &mut [u8],
) -> Result<u32, OpeningFault>
    requires page { IsPage page }
    requires size { length spam.old ≡ 1024 }
    ensures size { length spam.new ≡ 1024 }
    ensures reads { OnlyReads (D.view disk.old) (D.view disk.new) }
    ensures failed { IsErrOf result OpeningFault.Failed
        → Rose (D.view disk.old).faults (D.view disk.new).faults }
    ensures owner { IfOk result (λ owner. IsDataPage page → owner ≡ owner_of page spam.old) }
    ensures same { IsDataPage page → spam.new ≡ spam.old }
    ensures read { OnOk result (IsTrue (D.view disk.old).tells → IsSpacePage page
        → spam.new ≡ (D.view disk.old).content (area_named file) (page - 1)) }
    ensures bad { (f : File) (slot : ℕ) → IsErrOf result (OpeningFault.Bad f slot)
        → IsTrue (D.view disk.old).tells
        → (IsSpacePage page → IsSpace ((D.view disk.old).content (area_named file) (page - 1)) page)
        → ⊥ }
{
    if is_space_page(page) {
        return read_space(disk, file, page, spam);
    }
    Ok(owner(spam, page))
}

/// The owners of the pages of an area file, by its space pages: of page n in place n - 1, 0 where nobody owns it and of a space page. It reads each space page within the limit once, and takes four bytes a page.
pub fn read_owners<D: Disk>(
    alloc: Global,
    disk: &mut D,
    file: u32,
    pages: u32,
) -> Result<Vec<u32>, OpeningFault>
    requires { pages ≤ 65536 }
    ensures reads { OnlyReads (D.view disk.old) (D.view disk.new) }
    ensures failed { IsErrOf result OpeningFault.Failed
        → Rose (D.view disk.old).faults (D.view disk.new).faults }
    ensures owners { IfOk result (λ owners. IsTrue (D.view disk.old).tells
        → AreOwners (D.view disk.old).content file pages owners.items) }

    // It is refused only where a space page is none.
    ensures bad { (f : File) (slot : ℕ) → IsErrOf result (OpeningFault.Bad f slot)
        → IsTrue (D.view disk.old).tells
        → ((page : ℕ) → IsPage page → IsSpacePage page
        → IsSpace ((D.view disk.old).content (area_named file) (page - 1)) page)
        → ⊥ }
{
    let mut owners = Vec::new(alloc);
    let mut spam = [0; 1024];
    for slot in 0..pages {
        let found = next_owner(disk, file, slot + 1, &mut spam)?;
        let Ok(()) = owners.push(found) else {
            return Err(OpeningFault::NoMemory);
        };
    }
    Ok(owners)
}
