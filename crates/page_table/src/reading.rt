// The table of an area file, read at opening.
ghost use Rattle.std.specs.Prelude.{◌≡◌, ◌≤◌, ◌<◌, ◌-◌, ℕ, length, slice_index_or, IfOk, OnOk, OnErr, IsErrOf, IsTrue};
ghost use Rattle.rdb_types.specs.declared.file.FileId.{FileId as File};
ghost use Rattle.rdb_outside.specs.Causes.{Rose};
ghost use Rattle.rdb_outside.specs.Disk.{OnlyReads};
ghost use Rattle.area_files.specs.Areas.{IsPage, IsSpacePage, IsDataPage};
ghost use Rattle.rdb_page.specs.Page.{lines_of as lines_in, class_at, IsClass, StandsAs};
ghost use Rattle.rdb_page.specs.Lines.{IsLine, line_place};
ghost use Rattle.rdb_page.specs.Whole.{IsPageOf};
ghost use Rattle.database_opening.specs.stable_lines.Slots.{area_file as area_named, said_at};
ghost use Rattle.page_table.specs.declared.uses.PageUse.{PageUse as PageEntry};
ghost use Rattle.page_table.specs.Pages.{nobodys, IsWithin, Puts};
ghost use Rattle.page_table.specs.Reading.{SaysUse, IsEntryOf, IsTableOf, ArePages};

use crate::table::PageTable;
use crate::uses::PageUse;
use area_files::{is_space_page, slot_of};
use database_opening::{OpeningFault, area_file, read_owners};
use rdb_outside::Disk;
use rdb_page::{BadPage, Head, lines_of, read_head, read_line};
use rdb_types::LineState;
use std::alloc::Global;

// The state of the line of a number.
fn state_at(page: &[u8], line: u16) -> Result<LineState, BadPage>
    requires size { length page.now ≡ 1024 }
    requires class { IsClass (class_at page.now) }
    requires line { line < lines_in (class_at page.now) }
    ensures found { IfOk result (λ state. state
        ≡ (said_at (line_place (class_at page.now) line) page.now).state) }
    ensures none { OnErr result ((value : _) → IsLine page.now (class_at page.now) line value → ⊥) }
{
    let value = read_line(page, line)?;
    Ok(value.state)
}

// What a page with this head says.
fn with_states(page: &[u8], file: u32, head: Head) -> Result<PageUse, BadPage>
    requires size { length page.now ≡ 1024 }
    requires page { IsPage head.page }
    requires head { StandsAs page.now file head.page head }
    ensures says { IfOk result (SaysUse head.page page.now) }
    ensures refused { OnErr result (IsPageOf file head.page page.now → ⊥) }
{
    let mut used = PageUse::empty(head.owner, head.class);
    for line in 0..lines_of(head.class) {
        let state = state_at(page, line)?;
        used = used.with_line(line, state);
    }
    Ok(used)
}

// What the page of this number says. One of zeros is nobody's.
fn use_on(page: &[u8], file: u32, number: u32) -> Result<PageUse, BadPage>
    requires size { length page.now ≡ 1024 }
    requires page { IsPage number }
    ensures says { IfOk result (SaysUse number page.now) }
    ensures refused { OnErr result (IsPageOf file number page.now → ⊥) }
{
    match read_head(page, file, number)? {
        Some(head) => with_states(page, file, head),
        None => Ok(PageUse::empty(0, 0)),
    }
}

fn read_use<D: Disk>(disk: &mut D, file: u32, page: u32) -> Result<PageUse, OpeningFault>
    requires { IsPage page }
    ensures reads { OnlyReads (D.view disk.old) (D.view disk.new) }
    ensures failed { IsErrOf result OpeningFault.Failed
        → Rose (D.view disk.old).faults (D.view disk.new).faults }
    ensures says { IfOk result (λ used. IsTrue (D.view disk.old).tells
        → SaysUse page ((D.view disk.old).content (area_named file) (page - 1)) used) }
    ensures bad { (f : File) (slot : ℕ) → IsErrOf result (OpeningFault.Bad f slot)
        → IsTrue (D.view disk.old).tells
        → IsPageOf file page ((D.view disk.old).content (area_named file) (page - 1)) → ⊥ }
{
    let area = area_file(file);
    let slot = slot_of(page);
    let mut bytes = [0; 1024];
    disk.read(area, slot, &mut bytes)?;
    match use_on(&bytes, file, page) {
        Ok(used) => Ok(used),
        Err(_) => Err(OpeningFault::Bad(area, slot)),
    }
}

// What is to be kept of a page with this owner on its space page. Only where it has one it is read.
fn entry_of<D: Disk>(
    disk: &mut D,
    file: u32,
    page: u32,
    owner: u32,
) -> Result<PageUse, OpeningFault>
    requires { IsPage page }
    ensures reads { OnlyReads (D.view disk.old) (D.view disk.new) }
    ensures failed { IsErrOf result OpeningFault.Failed
        → Rose (D.view disk.old).faults (D.view disk.new).faults }
    ensures entry { IfOk result (λ used. IsTrue (D.view disk.old).tells → IsDataPage page
        → IsEntryOf owner page ((D.view disk.old).content (area_named file) (page - 1)) used) }
    ensures space { IfOk result (λ used. IsSpacePage page → used ≡ nobodys) }
    ensures bad { (f : File) (slot : ℕ) → IsErrOf result (OpeningFault.Bad f slot)
        → IsTrue (D.view disk.old).tells → IsDataPage page ×
        (IsPageOf file page ((D.view disk.old).content (area_named file) (page - 1)) → ⊥) }
{
    if owner == 0 || is_space_page(page) {
        return Ok(PageUse::empty(0, 0));
    }
    read_use(disk, file, page)
}

// The owner in a place, and nobody behind the last.
fn owner_in(owners: &[u32], place: u32) -> u32
    ensures { result ≡ slice_index_or owners.now place 0 }
{
    match owners.get(place as usize) {
        Some(owner) => *owner,
        None => 0,
    }
}

/// The table of an area file, read from its space pages and from each page that one of them gives an owner, once each. It takes memory for the table, and four bytes a page while it reads.
pub fn read_table<D: Disk>(
    alloc: Global,
    disk: &mut D,
    file: u32,
    pages: u32,
) -> Result<PageTable, OpeningFault>
    requires { pages ≤ 65536 }
    ensures reads { OnlyReads (D.view disk.old) (D.view disk.new) }
    ensures failed { IsErrOf result OpeningFault.Failed
        → Rose (D.view disk.old).faults (D.view disk.new).faults }
    ensures table { IfOk result (λ table. IsTrue (D.view disk.old).tells
        → IsTableOf (D.view disk.old).content file pages table) }

    // It is refused only where a page is none.
    ensures bad { (f : File) (slot : ℕ) → IsErrOf result (OpeningFault.Bad f slot)
        → IsTrue (D.view disk.old).tells → ArePages (D.view disk.old).content file → ⊥ }
{
    let owners = read_owners(alloc, disk, file, pages)?;
    let Ok(mut table) = PageTable::new(alloc, pages) else {
        return Err(OpeningFault::NoMemory);
    };
    for slot in 0..pages {
        let used = entry_of(disk, file, slot + 1, owner_in(&owners, slot))?;
        table.put(slot + 1, used);
    }
    Ok(table)
}

/// Keeps anew what a page says, behind a write of it. The page is read once, and no memory is taken.
pub fn reread_page<D: Disk>(
    disk: &mut D,
    table: &mut PageTable,
    file: u32,
    page: u32,
) -> Result<(), OpeningFault>
    requires within { IsWithin table.old page }
    requires page { IsPage page }
    ensures reads { OnlyReads (D.view disk.old) (D.view disk.new) }
    ensures failed { IsErrOf result OpeningFault.Failed
        → Rose (D.view disk.old).faults (D.view disk.new).faults }
    ensures same { OnErr result (table.new ≡ table.old) }
    ensures kept { OnOk result (IsTrue (D.view disk.old).tells
        → (used : PageEntry)
        × SaysUse page ((D.view disk.old).content (area_named file) (page - 1)) used
        × Puts page used table.old table.new) }
    ensures bad { (f : File) (slot : ℕ) → IsErrOf result (OpeningFault.Bad f slot)
        → IsTrue (D.view disk.old).tells
        → IsPageOf file page ((D.view disk.old).content (area_named file) (page - 1)) → ⊥ }
{
    let used = read_use(disk, file, page)?;
    table.put(page, used);
    Ok(())
}
