// The pages that are used.
ghost use Rattle.std.specs.Prelude.{◌≡◌, ◌≤◌, ◌<◌, ◌-◌, ◌+◌, ◌*◌, ◌⊎◌, ℕ, IfOk, OnOk, IsErrOf, IsTrue};
ghost use Rattle.std.specs.BTreeSet.{btree_set_len};
ghost use Rattle.rdb_types.specs.declared.file.FileId.{FileId as File};
ghost use Rattle.rdb_outside.specs.Causes.{Rose};
ghost use Rattle.rdb_outside.specs.Disk.{OnlyReads};
ghost use Rattle.rdb_page.specs.Whole.{IsPageOf};
ghost use Rattle.area_files.specs.Areas.{IsPage, IsDataPage};
ghost use Rattle.stable_lines.specs.Slots.{IsAreaFile};
ghost use Rattle.used_pages.specs.Pages.{has, ArePlaced, HasUsed, HasUsedTo, AreWhole, bytes_at};

use area_files::{is_space_page, slot_of};
use line_moves::area_file;
use line_opening::OpeningFault;
use rdb_outside::Disk;
use rdb_page::read_head;
use std::alloc::Global;
use std::collections::BTreeSet;

/// A page that belongs to a logical area. Pages are ordered by their areas.
#[derive(Clone, Copy, Debug, PartialEq, Eq, PartialOrd, Ord)]
pub struct AreaPage {
    pub area: u32,
    pub page: u32,
}

/// Pages in the order of their logical areas.
pub type UsedPages = BTreeSet<AreaPage>;

// Adds a page of a logical area.
fn add_page(pages: &mut UsedPages, area: u32, page: u32) -> Result<(), OpeningFault>
    ensures added { OnOk result (has pages.new (record { area = area; page = page })) }
    ensures kept { OnOk result ((other : AreaPage) → has pages.old other → has pages.new other) }
    ensures only { OnOk result ((other : AreaPage) → has pages.new other
        → has pages.old other ⊎ (other ≡ record { area = area; page = page })) }
    ensures few { OnOk result (btree_set_len pages.new ≤ btree_set_len pages.old + 1) }
    ensures memory { IsErrOf result OpeningFault.Failed → ⊥ }
    ensures no_slot { (file : File) (slot : ℕ) → IsErrOf result (OpeningFault.Bad file slot) → ⊥ }
{
    match pages.insert(AreaPage { area, page }) {
        Ok(_) => Ok(()),
        Err(_) => Err(OpeningFault::NoMemory),
    }
}

// Reads a data page and adds it, if it is used.
fn read_page<D: Disk>(
    disk: &mut D,
    file: u32,
    number: u32,
    pages: &mut UsedPages,
) -> Result<(), OpeningFault>
    requires { IsDataPage number }
    ensures used { OnOk result (IsTrue (D.view disk.old).tells
        → HasUsedTo (D.view disk.old).content file (number - 1) pages.old
        → HasUsedTo (D.view disk.old).content file number pages.new) }
    ensures kept { OnOk result ((other : AreaPage) → has pages.old other → has pages.new other) }
    ensures placed { OnOk result (ArePlaced pages.old → ArePlaced pages.new) }
    ensures few { OnOk result (btree_set_len pages.new ≤ btree_set_len pages.old + 1) }
    ensures failed { IsErrOf result OpeningFault.Failed
        → Rose (D.view disk.old).faults (D.view disk.new).faults }
    ensures bad { (f : File) (slot : ℕ) → IsErrOf result (OpeningFault.Bad f slot)
        → IsTrue (D.view disk.old).tells
        → IsPageOf file number (bytes_at (D.view disk.old).content file number) → ⊥ }
    ensures reads { OnlyReads (D.view disk.old) (D.view disk.new) }
{
    let mut bytes = [0; 1024];
    disk.read(area_file(file), slot_of(number), &mut bytes)?;
    match read_head(&bytes, file, number) {
        Ok(None) => Ok(()),
        Ok(Some(head)) => add_page(pages, head.owner, number),
        Err(_) => Err(OpeningFault::Bad(area_file(file), slot_of(number))),
    }
}

// The same of any page: a space page is passed over.
fn pass_page<D: Disk>(
    disk: &mut D,
    file: u32,
    number: u32,
    pages: &mut UsedPages,
) -> Result<(), OpeningFault>
    requires { IsPage number }
    ensures used { OnOk result (IsTrue (D.view disk.old).tells
        → HasUsedTo (D.view disk.old).content file (number - 1) pages.old
        → HasUsedTo (D.view disk.old).content file number pages.new) }
    ensures kept { OnOk result ((other : AreaPage) → has pages.old other → has pages.new other) }
    ensures placed { OnOk result (ArePlaced pages.old → ArePlaced pages.new) }
    ensures few { OnOk result (btree_set_len pages.new ≤ btree_set_len pages.old + 1) }
    ensures failed { IsErrOf result OpeningFault.Failed
        → Rose (D.view disk.old).faults (D.view disk.new).faults }
    ensures bad { (f : File) (slot : ℕ) → IsErrOf result (OpeningFault.Bad f slot)
        → IsTrue (D.view disk.old).tells → IsAreaFile file
        → AreWhole (D.view disk.old).content → ⊥ }
    ensures reads { OnlyReads (D.view disk.old) (D.view disk.new) }
{
    if is_space_page(number) {
        return Ok(());
    }
    read_page(disk, file, number, pages)
}

// Adds the used pages among so many of a file.
fn read_pages<D: Disk>(
    disk: &mut D,
    file: u32,
    count: u32,
    pages: &mut UsedPages,
) -> Result<(), OpeningFault>
    requires { count ≤ 65536 }
    ensures used { OnOk result (IsTrue (D.view disk.old).tells
        → HasUsedTo (D.view disk.old).content file count pages.new) }
    ensures kept { OnOk result ((other : AreaPage) → has pages.old other → has pages.new other) }
    ensures placed { OnOk result (ArePlaced pages.old → ArePlaced pages.new) }
    ensures few { OnOk result (btree_set_len pages.new ≤ btree_set_len pages.old + 65536) }
    ensures failed { IsErrOf result OpeningFault.Failed
        → Rose (D.view disk.old).faults (D.view disk.new).faults }
    ensures bad { (f : File) (slot : ℕ) → IsErrOf result (OpeningFault.Bad f slot)
        → IsTrue (D.view disk.old).tells → IsAreaFile file
        → AreWhole (D.view disk.old).content → ⊥ }
    ensures reads { OnlyReads (D.view disk.old) (D.view disk.new) }
{
    for slot in 0..count {
        pass_page(disk, file, slot + 1, pages)?;
    }
    Ok(())
}

// How many of a file's pages may have been written, where it has so many slots.
fn pages_within(length: u32) -> u32
    ensures few { result ≤ 65536 }
    ensures rest { (page : ℕ) → result < page → page ≤ 65536 → length ≤ page - 1 }
{
    if length < 65_536 { length } else { 65_536 }
}

// Adds the used pages of a file.
fn read_file<D: Disk>(disk: &mut D, file: u32, pages: &mut UsedPages) -> Result<(), OpeningFault>
    ensures used { OnOk result (IsTrue (D.view disk.old).tells
        → HasUsedTo (D.view disk.old).content file 65536 pages.new) }
    ensures kept { OnOk result ((other : AreaPage) → has pages.old other → has pages.new other) }
    ensures placed { OnOk result (ArePlaced pages.old → ArePlaced pages.new) }
    ensures few { OnOk result (btree_set_len pages.new ≤ btree_set_len pages.old + 65536) }
    ensures failed { IsErrOf result OpeningFault.Failed
        → Rose (D.view disk.old).faults (D.view disk.new).faults }
    ensures bad { (f : File) (slot : ℕ) → IsErrOf result (OpeningFault.Bad f slot)
        → IsTrue (D.view disk.old).tells → IsAreaFile file
        → AreWhole (D.view disk.old).content → ⊥ }
    ensures reads { OnlyReads (D.view disk.old) (D.view disk.new) }
{
    let length = disk.length(area_file(file))?;
    read_pages(disk, file, pages_within(length), pages)
}

/// The data pages that are used of all area files, each under the logical area that it says. It reads each data page once, up to the length of its file; a page takes some 20 bytes of memory, and the logarithm of their number to be added.
pub fn used_pages<D: Disk>(alloc: Global, disk: &mut D) -> Result<UsedPages, OpeningFault>
    // Each page that is used is there.
    ensures used { IfOk result (λ pages. IsTrue (D.view disk.old).tells
        → HasUsed (D.view disk.old).content pages) }

    // Whatever the disk tells, each is a data page in the file of its area.
    ensures placed { IfOk result ArePlaced }
    ensures few { IfOk result (λ pages. btree_set_len pages ≤ 3 * 65536) }

    // It doesn't give up by itself, and is refused only where a data page fails its decoder.
    ensures failed { IsErrOf result OpeningFault.Failed
        → Rose (D.view disk.old).faults (D.view disk.new).faults }
    ensures bad { (f : File) (slot : ℕ) → IsErrOf result (OpeningFault.Bad f slot)
        → IsTrue (D.view disk.old).tells → AreWhole (D.view disk.old).content → ⊥ }

    // Whatever it answers.
    ensures reads { OnlyReads (D.view disk.old) (D.view disk.new) }
{
    let mut pages = BTreeSet::new(alloc);
    read_file(disk, 1, &mut pages)?;
    read_file(disk, 2, &mut pages)?;
    read_file(disk, 3, &mut pages)?;
    Ok(pages)
}
