// The pages of the file of an area.
ghost use Rattle.std.specs.Prelude.{◌≡◌, ◌≤◌, ◌<◌, ◌+◌, ◌-◌, ℕ, IfOk, OnOk, IsErrOf, IsTrue, List};
ghost use Rattle.rdb_types.specs.declared.file.FileId.{FileId as File};
ghost use Rattle.rdb_outside.specs.Causes.{Rose};
ghost use Rattle.rdb_outside.specs.Disk.{OnlyReads, Image as Content};
ghost use Rattle.journal_scan.specs.declared.group.Group.{Group};
ghost use Rattle.rdb_page.specs.Page.{IsOwner};
ghost use Rattle.area_files.specs.Areas.{IsPage};
ghost use Rattle.line_view.specs.Knowledge.{Lines, lines_in};
ghost use Rattle.stable_lines.specs.Image.{StandsFor};
ghost use Rattle.page_faults.specs.Checks.{Passes};
ghost use Rattle.before_images.specs.Before.{LaysLines};
ghost use Rattle.lines_at_rest.specs.Area.{HoldsTo};
ghost use Rattle.lines_at_rest.specs.Left.{IsPageSlot, IsReadAs};
ghost use Rattle.stable_lines.specs.Slots.{area_file as area_named};
ghost use Rattle.lines_at_rest.specs.declared.reading.FaultyPages.TheVariants.{Refused};

use crate::lines::AreaLines;
use crate::page::add_read;
use crate::reading::RestReading;
use area_files::{slot_of, storage_area};
use line_moves::area_file;
use line_opening::OpeningFault;
use rdb_outside::Disk;
use std::alloc::Global;

// Reads a page and adds its present lines.
fn read_page<D: Disk>(
    disk: &mut D,
    file: u32,
    area: u32,
    number: u32,
    held: &RestReading,
    found: &mut AreaLines,
) -> Result<(), OpeningFault>
    requires { IsPage number }
    ensures lines { OnOk result (IsTrue (D.view disk.old).tells
        → (left : Content) → IsReadAs held.now.faulty (D.view disk.old).content left
        → (groups : List Group) → LaysLines left groups held.now.before → IsOwner file area
        → HoldsTo left held.now.before area number 0 found.old
        → HoldsTo left held.now.before area (number + 1) 0 found.new) }
    ensures failed { IsErrOf result OpeningFault.Failed
        → Rose (D.view disk.old).faults (D.view disk.new).faults }
    ensures refused { (f : File) (slot : ℕ) → IsErrOf result (OpeningFault.Bad f slot)
        → (held.now.faulty ≡ Refused) × (f ≡ area_named file) × IsPage (slot + 1) }
    ensures bad { (f : File) (slot : ℕ) → IsErrOf result (OpeningFault.Bad f slot)
        → IsTrue (D.view disk.old).tells
        → Passes f.number (slot + 1) ((D.view disk.old).content f slot) → ⊥ }
    ensures reads { OnlyReads (D.view disk.old) (D.view disk.new) }
{
    let mut page = [0; 1024];
    disk.read(area_file(file), slot_of(number), &mut page)?;
    match add_read(&page, file, area, number, held, found) {
        Ok(true) => Ok(()),
        Ok(false) => Err(OpeningFault::Bad(area_file(file), slot_of(number))),
        Err(_) => Err(OpeningFault::NoMemory),
    }
}

// Reads so many pages of a file and adds their present lines.
fn read_pages<D: Disk>(
    disk: &mut D,
    file: u32,
    area: u32,
    count: u32,
    held: &RestReading,
    found: &mut AreaLines,
) -> Result<(), OpeningFault>
    requires { count ≤ 65536 }
    ensures lines { OnOk result (IsTrue (D.view disk.old).tells
        → (left : Content) → IsReadAs held.now.faulty (D.view disk.old).content left
        → (groups : List Group) → LaysLines left groups held.now.before → IsOwner file area
        → HoldsTo left held.now.before area 1 0 found.old
        → HoldsTo left held.now.before area (count + 1) 0 found.new) }
    ensures failed { IsErrOf result OpeningFault.Failed
        → Rose (D.view disk.old).faults (D.view disk.new).faults }
    ensures refused { (f : File) (slot : ℕ) → IsErrOf result (OpeningFault.Bad f slot)
        → (held.now.faulty ≡ Refused) × (f ≡ area_named file) × IsPage (slot + 1) }
    ensures bad { (f : File) (slot : ℕ) → IsErrOf result (OpeningFault.Bad f slot)
        → IsTrue (D.view disk.old).tells
        → Passes f.number (slot + 1) ((D.view disk.old).content f slot) → ⊥ }
    ensures reads { OnlyReads (D.view disk.old) (D.view disk.new) }
{
    for slot in 0..count {
        read_page(disk, file, area, slot + 1, held, found)?;
    }
    Ok(())
}

// How many of a file's pages may have been written, where it has so many slots.
fn pages_within(length: u32) -> u32
    ensures few { result ≤ 65536 }
    ensures rest { (page : ℕ) → result < page → page ≤ 65536 → length ≤ page - 1 }
{
    if length < 65_536 { length } else { 65_536 }
}

/// The present lines of a logical area, with the open transactions undone. It goes over all pages of the area's file, one in memory at a time; the memory grows as the lines of the area.
pub fn read_area<D: Disk>(
    alloc: Global,
    disk: &mut D,
    held: &RestReading,
    area: u32,
) -> Result<AreaLines, OpeningFault>
    // They are the area's of the map that the disk's content stands for, or what that leaves.
    ensures lines { IfOk result (λ found. IsTrue (D.view disk.old).tells
        → (file : ℕ) → IsOwner file area
        → (left : Content) → IsReadAs held.now.faulty (D.view disk.old).content left
        → (groups : List Group) (lines : Lines) → LaysLines left groups held.now.before
        → StandsFor left groups lines → found ≡ lines_in area lines) }

    // It doesn't give up by itself.
    ensures failed { IsErrOf result OpeningFault.Failed
        → Rose (D.view disk.old).faults (D.view disk.new).faults }

    // It is refused only where such pages are, and that page fails its decoder.
    ensures refused { (f : File) (slot : ℕ) → IsErrOf result (OpeningFault.Bad f slot)
        → (held.now.faulty ≡ Refused) × IsPageSlot f slot }
    ensures bad { (f : File) (slot : ℕ) → IsErrOf result (OpeningFault.Bad f slot)
        → IsTrue (D.view disk.old).tells
        → Passes f.number (slot + 1) ((D.view disk.old).content f slot) → ⊥ }

    // Whatever it answers.
    ensures reads { OnlyReads (D.view disk.old) (D.view disk.new) }
{
    let mut found = AreaLines::new(alloc);
    let Some(file) = storage_area(area) else {
        return Ok(found);
    };
    let length = disk.length(area_file(file))?;
    read_pages(disk, file, area, pages_within(length), held, &mut found)?;
    Ok(found)
}
