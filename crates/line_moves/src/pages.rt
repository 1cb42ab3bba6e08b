// One line put on its page.
ghost use Rattle.std.specs.Prelude.{◌≡◌, ◌≢◌, ◌-◌, ℕ, true, length, OnOk, OnErr, IsErrOf, IsTrue};
ghost use Rattle.rdb_types.specs.declared.file.FileId.{FileId as File};
ghost use Rattle.rdb_types.specs.declared.keys.Dbkey.{Dbkey as Key};
ghost use Rattle.line_store.specs.rdb_page.Lines.{IsAllowedLine};
ghost use Rattle.line_store.specs.rdb_page.Page.{class_at};
ghost use Rattle.line_store.specs.rdb_page.Whole.{IsPageOf};
ghost use Rattle.line_store.specs.rdb_outside.Causes.{Rose};
ghost use Rattle.line_store.specs.rdb_outside.Disk.{Pending};
ghost use Rattle.line_store.specs.area_files.Areas.{IsDataPage};
ghost use Rattle.stable_lines.specs.Slots.{IsAreaFile, area_file as file_named, has_place, line_on, line_at as line_in_image};
ghost use Rattle.stable_lines.specs.Progress.{Progress};
ghost use Rattle.stable_lines.specs.Facts.{Facts};
ghost use Rattle.line_moves.specs.Calls.{OnlyWrites};
ghost use Rattle.line_moves.specs.Contents.{PutsLine};
ghost use Rattle.line_moves.specs.Changes.{IsPlaceOf, MayPut, Fits, PutsOne};
ghost use Rattle.line_moves.specs.declared.places.Place.{Place as Spot};
ghost use Rattle.line_moves.specs.Classes.{HaveTheirClasses, KeepsOwners};

use crate::places::{Place, area_file};
use line_store::{Disk, Fault, is_allowed_line, lines_of, put_line, read_head, slot_of};
use rdb_types::{Dbkey, Line};

/// The page has no place for the line, or the line is too long for it.
#[derive(Clone, Copy, Debug, PartialEq, Eq)]
pub struct NoPlace {}

/// Puts a line on a page in use. It is refused only where the page has no place for it; then the page is as before.
pub fn put_on(page: &mut [u8], key: Dbkey, place: Place, value: &Line) -> Result<(), NoPlace>
    requires size { length page.old ≡ 1024 }
    requires place { IsPlaceOf key place }
    ensures size { length page.new ≡ 1024 }
    ensures puts { OnOk result (IsPageOf place.file place.page page.old
        → PutsLine place.file place.page key page.old page.new) }
    ensures here { OnOk result (IsPageOf place.file place.page page.old
        → line_on key page.new ≡ value.now) }
    ensures refused { OnErr result (IsPageOf place.file place.page page.old
        → Fits key value.now page.old → ⊥) }
    ensures same { OnErr result (page.new ≡ page.old) }
{
    let Ok(found) = read_head(page, place.file, place.page) else {
        return Err(NoPlace {});
    };
    let Some(head) = found else {
        return Err(NoPlace {});
    };
    if head.owner != key.area || key.line >= lines_of(head.class) {
        return Err(NoPlace {});
    }
    if !is_allowed_line(head.class as usize, value) {
        return Err(NoPlace {});
    }
    put_line(page, key.line, value);
    Ok(())
}

/// Puts a line on its page, which is in use: it is read and written at once. What was written is left in `page`.
pub fn change_line<D: Disk>(
    disk: &mut D,
    key: Dbkey,
    place: Place,
    value: &Line,
    page: &mut [u8],
) -> Result<(), Fault>
    requires size { length page.old ≡ 1024 }
    requires place { IsPlaceOf key place }
    ensures size { length page.new ≡ 1024 }
    ensures writes { OnlyWrites (file_named place.file) (place.page - 1)
        (D.view disk.old) (D.view disk.new) }
    ensures failed { IsErrOf result Fault.Failed
        → Rose (D.view disk.old).faults (D.view disk.new).faults }

    // It is refused only where the page is none, or has no place for the line.
    ensures bad { (file : File) (slot : ℕ) → IsErrOf result (Fault.Bad file slot)
        → IsTrue (D.view disk.old).tells
        → let old = (D.view disk.old).content (file_named place.file) (place.page - 1) in
        IsPageOf place.file place.page old → Fits key value.now old → ⊥ }

    // The line stands, and every other one is as it was.
    ensures stands { OnOk result (IsTrue (D.view disk.old).tells → (now : Progress)
        → Facts (Pending (D.view disk.old)) now
        → line_in_image (D.view disk.new).content key ≡ value.now) }
    ensures others { OnOk result (IsTrue (D.view disk.old).tells → (now : Progress)
        → Facts (Pending (D.view disk.old)) now → (other : Key) → other ≢ key
        → line_in_image (D.view disk.new).content other
        ≡ line_in_image (D.view disk.old).content other) }

    // Whatever it answers, pages have the classes of their areas where they had.
    ensures classes { IsTrue (D.view disk.old).tells → (now : Progress)
        → Facts (Pending (D.view disk.old)) now → (classes : ℕ → ℕ)
        → HaveTheirClasses classes (Pending (D.view disk.old))
        → HaveTheirClasses classes (Pending (D.view disk.new)) }

    // Whatever it answers, a page that may have no other area's owner has none.
    ensures owners { IsTrue (D.view disk.old).tells → (now : Progress)
        → Facts (Pending (D.view disk.old)) now → (there : Spot) (area : ℕ)
        → IsAreaFile there.file → IsDataPage there.page
        → KeepsOwners (Pending (D.view disk.old)) (Pending (D.view disk.new)) there area }

    // Whatever it answers, no other line is changed, and this one is as it was or stands.
    ensures changes { IsTrue (D.view disk.old).tells → (now : Progress)
        → Facts (Pending (D.view disk.old)) now
        → PutsOne key value.now (D.view disk.old).content (D.view disk.new).content }

    // Whatever it answers, the facts stay.
    ensures keeps { IsTrue (D.view disk.old).tells → (now : Progress)
        → Facts (Pending (D.view disk.old)) now
        → MayPut (Pending (D.view disk.old)) now key value.now
        → Facts (Pending (D.view disk.new)) now }
{
    let file = area_file(place.file);
    let slot = slot_of(place.page);
    disk.read(file, slot, page)?;
    let Ok(()) = put_on(page, key, place, value) else {
        return Err(Fault::Bad(file, slot));
    };
    disk.write(file, slot, page)?;
    Ok(())
}
