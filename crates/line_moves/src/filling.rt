// The lines of a transaction on one page, written at once.
ghost use Rattle.std.specs.Prelude.{◌≡◌, ◌-◌, ◌≤◌, ◌<◌, ℕ, true, length, slice_get, Some, IfOk, OnErr, IsErrOf, IsTrue};
ghost use Rattle.rdb_types.specs.declared.file.FileId.{FileId as File};
ghost use Rattle.line_store.specs.rdb_page.Page.{IsClass, IsUnused, class_at};
ghost use Rattle.line_store.specs.rdb_page.Whole.{IsPageOf, IsUsedPage};
ghost use Rattle.line_store.specs.rdb_outside.Causes.{Rose};
ghost use Rattle.line_store.specs.rdb_outside.Disk.{Pending};
ghost use Rattle.line_store.specs.area_files.Areas.{IsDataPage};
ghost use Rattle.stable_lines.specs.Slots.{IsAreaFile, area_file as file_named};
ghost use Rattle.stable_lines.specs.Progress.{Progress};
ghost use Rattle.stable_lines.specs.Facts.{Facts};
ghost use Rattle.line_moves.specs.Calls.{OnlyWrites};
ghost use Rattle.line_moves.specs.Changes.{IsPlaceOf};
ghost use Rattle.line_moves.specs.declared.places.Place.{Place as Spot};
ghost use Rattle.line_moves.specs.Classes.{HaveTheirClasses, KeepsOwners, LieForArea};
ghost use Rattle.line_moves.specs.Lines.{AllFit, AllFitBegun, AreDistinct, ArePut, Fills, MayBegin, IsStarted, MayPutAll, PutsOnly};

use crate::pages::{NoPlace, put_on};
use crate::places::{Place, area_file};
use line_store::{Disk, Fault, Head, put_head, slot_of};
use rdb_types::{Dbkey, Line};
use slot_fields::is_zeros;

// Whether two lines stand on one page.
fn is_beside(key: Dbkey, first: Dbkey) -> bool
    ensures { result ≡ true → (key.area ≡ first.area) × (key.page ≡ first.page) }
{
    key.area == first.area && key.page == first.page
}

// Puts lines on a page, from one of them up to the first that stands on another page.
fn fill(
    page: &mut [u8],
    lines: &[(Dbkey, Line)],
    from: usize,
    place: Place,
) -> Result<usize, NoPlace>
    requires size { length page.old ≡ 1024 }
    requires within { from < length lines.now }
    requires place { (line : _) → slice_get lines.now from ≡ Some line → IsPlaceOf line.0 place }
    requires distinct { AreDistinct lines.now }
    ensures size { length page.new ≡ 1024 }
    ensures further { IfOk result (λ next. (from < next) × (next ≤ length lines.now)) }
    ensures fills { IfOk result (λ next. IsPageOf place.file place.page page.old
        → Fills lines.now from next place page.old page.new) }
    ensures refused { OnErr result (IsPageOf place.file place.page page.old
        → AllFit lines.now from page.old → ⊥) }
{
    let first = lines[from].0;
    put_on(page, first, place, &lines[from].1)?;
    let mut at = from + 1;
    'put: while at < lines.len() {
        let key = lines[at].0;
        if !is_beside(key, first) {
            break 'put;
        }
        put_on(page, key, place, &lines[at].1)?;
        at += 1;
    }
    Ok(at)
}

// Gives a page that was never used its head, and leaves any other.
fn start(page: &mut [u8], place: Place, owner: u32, class: u16)
    requires size { length page.old ≡ 1024 }
    requires class { IsClass class }
    ensures size { length page.new ≡ 1024 }
    ensures started { IsStarted place owner class page.old page.new }
{
    if is_zeros(page) {
        put_head(
            page,
            &Head {
                page: place.page,
                owner,
                class,
            },
        );
    }
}

/// Writes a page with all the lines that it is to have, from one of them on: it is read and written at once, and gets a head of this class where it was never used. The answer is the first line that stands on another page. What was written is left in `page`. The time grows as the lines of the page.
pub fn write_page<D: Disk>(
    disk: &mut D,
    lines: &[(Dbkey, Line)],
    from: usize,
    place: Place,
    class: u16,
    page: &mut [u8],
) -> Result<usize, Fault>
    requires size { length page.old ≡ 1024 }
    requires within { from < length lines.now }
    requires place { (line : _) → slice_get lines.now from ≡ Some line → IsPlaceOf line.0 place }
    requires distinct { AreDistinct lines.now }
    requires class { IsClass class }
    ensures size { length page.new ≡ 1024 }
    ensures writes { OnlyWrites (file_named place.file) (place.page - 1)
        (D.view disk.old) (D.view disk.new) }
    ensures failed { IsErrOf result Fault.Failed
        → Rose (D.view disk.old).faults (D.view disk.new).faults }
    ensures further { IfOk result (λ next. (from < next) × (next ≤ length lines.now)) }

    // It is refused only where the page is none, or has no place for one of its lines.
    ensures bad { (file : File) (slot : ℕ) → IsErrOf result (Fault.Bad file slot)
        → IsTrue (D.view disk.old).tells
        → let old = (D.view disk.old).content (file_named place.file) (place.page - 1) in
        IsPageOf place.file place.page old → AllFitBegun lines.now from place class old → ⊥ }

    // Those lines stand on their pages, as those before them do.
    ensures put { IfOk result (λ next. IsTrue (D.view disk.old).tells → (now : Progress)
        → Facts (Pending (D.view disk.old)) now
        → ArePut (D.view disk.old).content lines.now from
        → ArePut (D.view disk.new).content lines.now next) }

    // A page in use has the class that it had, and another gets this one.
    ensures class { IfOk result (λ next. IsTrue (D.view disk.old).tells → (now : Progress)
        → Facts (Pending (D.view disk.old)) now
        → let old = (D.view disk.old).content (file_named place.file) (place.page - 1) in
        let new = (D.view disk.new).content (file_named place.file) (place.page - 1) in
        (IsUnused old → class_at new ≡ class) × ((IsUnused old → ⊥) → class_at new ≡ class_at old)) }

    // Whatever it answers, pages have the classes of their areas where they had, and this is that of the first line's area.
    ensures classes { IsTrue (D.view disk.old).tells → (now : Progress)
        → Facts (Pending (D.view disk.old)) now → (classes : ℕ → ℕ)
        → ((line : _) → slice_get lines.now from ≡ Some line → class ≡ classes line.0.area)
        → HaveTheirClasses classes (Pending (D.view disk.old))
        → HaveTheirClasses classes (Pending (D.view disk.new)) }

    // Whatever it answers, a page that may have no other area's owner has none, where the lines that lie there are the area's.
    ensures owners { IsTrue (D.view disk.old).tells → (now : Progress)
        → Facts (Pending (D.view disk.old)) now → (there : Spot) (area : ℕ)
        → IsAreaFile there.file → IsDataPage there.page → LieForArea lines.now there area
        → KeepsOwners (Pending (D.view disk.old)) (Pending (D.view disk.new)) there area }

    // Whatever it answers, each line is as it was, or one of these.
    ensures changes { IsTrue (D.view disk.old).tells → (now : Progress)
        → Facts (Pending (D.view disk.old)) now
        → PutsOnly lines.now (D.view disk.old).content (D.view disk.new).content }

    // Whatever it answers, the facts stay, where the lines may be put and the space page has the page's owner.
    ensures keeps { IsTrue (D.view disk.old).tells → (now : Progress)
        → Facts (Pending (D.view disk.old)) now
        → MayPutAll (Pending (D.view disk.old)) now lines.now
        → MayBegin (D.view disk.old) lines.now from place
        → Facts (Pending (D.view disk.new)) now }
{
    let file = area_file(place.file);
    let slot = slot_of(place.page);
    disk.read(file, slot, page)?;
    start(page, place, lines[from].0.area, class);
    let Ok(next) = fill(page, lines, from, place) else {
        return Err(Fault::Bad(file, slot));
    };
    disk.write(file, slot, page)?;
    Ok(next)
}
