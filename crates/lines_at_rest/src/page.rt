// The lines of one page.
ghost use Rattle.std.specs.Prelude.{◌≡◌, ◌⊎◌, ◌-◌, ◌+◌, true, false, length, IfOk, OnOk, List};
ghost use Rattle.rdb_outside.specs.Disk.{Image as Content};
ghost use Rattle.journal_scan.specs.declared.group.Group.{Group};
ghost use Rattle.rdb_page.specs.Page.{IsOwner, StandsAs, lines_of as lines_in};
ghost use Rattle.rdb_page.specs.Whole.{IsPageOf};
ghost use Rattle.area_files.specs.Areas.{IsPage, IsDataPage};
ghost use Rattle.line_versions.specs.Lines.{shown};
ghost use Rattle.stable_lines.specs.Slots.{area_file, owner_at};
ghost use Rattle.page_faults.specs.Checks.{Passes, page_at};
ghost use Rattle.before_images.specs.Before.{LaysLines};
ghost use Rattle.lines_at_rest.specs.Area.{with_present, HoldsTo};
ghost use Rattle.lines_at_rest.specs.Left.{IsLeftOf, IsReadAs};

use crate::lines::AreaLines;
use crate::reading::{FaultyPages, RestReading};
use area_files::is_space_page;
use before_images::{OpenTransaction, line_before};
use page_faults::passes;
use rdb_page::{Head, lines_of, read_head, read_line};
use rdb_types::{Dbkey, Line, LineState, NoMemory};
use slot_fields::u32_at;
use space_pages::check;

// Adds a line that is present.
fn add_present(found: &mut AreaLines, key: Dbkey, line: Line) -> Result<(), NoMemory>
    ensures { OnOk result (found.new ≡ with_present key (shown line) found.old) }
{
    match line.state {
        LineState::Present => found.put(key, &line.image),
        LineState::Never | LineState::Erased => Ok(()),
    }
}

// Adds the present lines of a page with this head. False is answered where a line is none.
fn add_lines(
    page: &[u8],
    file: u32,
    head: Head,
    held: &[OpenTransaction],
    found: &mut AreaLines,
) -> Result<bool, NoMemory>
    requires size { length page.now ≡ 1024 }
    requires stands { StandsAs page.now file head.page head }
    requires data { IsDataPage head.page }
    ensures lines { IfOk result (λ whole. whole ≡ true → (image : Content)
        → page.now ≡ image (area_file file) (head.page - 1)
        → HoldsTo image held.now head.owner head.page 0 found.old
        → HoldsTo image held.now head.owner head.page (lines_in head.class) found.new) }
    ensures bad { IfOk result (λ whole. whole ≡ false → IsPageOf file head.page page.now → ⊥) }
{
    for line in 0..lines_of(head.class) {
        let key = Dbkey {
            area: head.owner,
            page: head.page,
            line,
        };
        let Ok(stood) = read_line(page, line) else {
            return Ok(false);
        };
        add_present(found, key, line_before(held, key, stood))?;
    }
    Ok(true)
}

// Adds the present lines of a data page, where it is of the area. False is answered where the page is none.
fn add_data_page(
    page: &[u8],
    file: u32,
    area: u32,
    number: u32,
    held: &[OpenTransaction],
    found: &mut AreaLines,
) -> Result<bool, NoMemory>
    requires size { length page.now ≡ 1024 }
    requires data { IsDataPage number }
    ensures lines { IfOk result (λ whole. whole ≡ true → (image : Content) (groups : List Group)
        → LaysLines image groups held.now → IsOwner file area
        → page.now ≡ image (area_file file) (number - 1)
        → HoldsTo image held.now area number 0 found.old
        → HoldsTo image held.now area (number + 1) 0 found.new) }
    ensures bad { IfOk result (λ whole. whole ≡ false → IsPageOf file number page.now → ⊥) }
{
    match read_head(page, file, number) {
        Ok(None) => Ok(true),
        Ok(Some(head)) => if head.owner == area {
            add_lines(page, file, head, held, found)
        } else {
            Ok(true)
        },
        Err(_) => Ok(false),
    }
}

// Adds the present lines of a page, where it is of the area. False is answered where the page fails its decoder.
fn add_page(
    page: &[u8],
    file: u32,
    area: u32,
    number: u32,
    held: &[OpenTransaction],
    found: &mut AreaLines,
) -> Result<bool, NoMemory>
    requires size { length page.now ≡ 1024 }
    requires number { IsPage number }
    ensures lines { IfOk result (λ whole. whole ≡ true → (image : Content) (groups : List Group)
        → LaysLines image groups held.now → IsOwner file area
        → page.now ≡ image (area_file file) (number - 1)
        → HoldsTo image held.now area number 0 found.old
        → HoldsTo image held.now area (number + 1) 0 found.new) }
    ensures bad { IfOk result (λ whole. whole ≡ false → Passes file number page.now → ⊥) }
{
    if is_space_page(number) {
        return Ok(check(page, number).is_ok());
    }
    add_data_page(page, file, area, number, held, found)
}

// Whether a page says that it is of the area, and passes its decoder.
fn is_of(page: &[u8], file: u32, area: u32, number: u32) -> bool
    requires size { length page.now ≡ 1024 }
    requires number { IsPage number }
    ensures yes { result ≡ true → Passes file number page.now }
    ensures no { result ≡ false → (owner_at page.now ≡ area → ⊥) ⊎ (Passes file number page.now → ⊥) }
{
    if u32_at(page, 8) == area {
        passes(page, file, number)
    } else {
        false
    }
}

// Adds the present lines of a page, where it is of the area and passes its decoder.
fn add_passing(
    page: &[u8],
    file: u32,
    area: u32,
    number: u32,
    held: &[OpenTransaction],
    found: &mut AreaLines,
) -> Result<(), NoMemory>
    requires size { length page.now ≡ 1024 }
    requires number { IsPage number }
    ensures { OnOk result ((left : Content) (groups : List Group)
        → LaysLines left groups held.now → IsOwner file area
        → IsLeftOf file number page.now (page_at left file number)
        → HoldsTo left held.now area number 0 found.old
        → HoldsTo left held.now area (number + 1) 0 found.new) }
{
    if is_of(page, file, area, number) {
        let _is_whole = add_page(page, file, area, number, held, found)?;
        Ok(())
    } else {
        Ok(())
    }
}

/// Adds the present lines of a page, where it is of the area. False is answered where the page fails its decoder and is refused.
pub(crate) fn add_read(
    page: &[u8],
    file: u32,
    area: u32,
    number: u32,
    held: &RestReading,
    found: &mut AreaLines,
) -> Result<bool, NoMemory>
    requires size { length page.now ≡ 1024 }
    requires number { IsPage number }
    ensures lines { IfOk result (λ whole. whole ≡ true → (image left : Content)
        → page.now ≡ page_at image file number → IsReadAs held.now.faulty image left
        → (groups : List Group) → LaysLines left groups held.now.before → IsOwner file area
        → HoldsTo left held.now.before area number 0 found.old
        → HoldsTo left held.now.before area (number + 1) 0 found.new) }
    ensures refused { IfOk result (λ whole. whole ≡ false → held.now.faulty ≡ FaultyPages.Refused) }
    ensures bad { IfOk result (λ whole. whole ≡ false → Passes file number page.now → ⊥) }
{
    match held.faulty {
        FaultyPages::Refused => add_page(page, file, area, number, held.before.as_slice(), found),
        FaultyPages::LeftOut => {
            add_passing(page, file, area, number, held.before.as_slice(), found)?;
            Ok(true)
        }
    }
}
