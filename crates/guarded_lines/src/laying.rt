// A line on its page.
ghost use Rattle.std.specs.Prelude.{◌≡◌, ◌-◌, ◌≤◌, ℕ, length, OnOk, OnErr, IsErrOf, IsTrue};
ghost use Rattle.rdb_types.specs.declared.file.FileId.{FileId as File};
ghost use Rattle.rdb_outside.specs.Causes.{Rose};
ghost use Rattle.rdb_page.specs.Lines.{IsAllowedLine};
ghost use Rattle.rdb_page.specs.Page.{IsClass};
ghost use Rattle.rdb_page.specs.Whole.{IsPageOf};
ghost use Rattle.area_files.specs.Areas.{space_page_of as space_of};
ghost use Rattle.space_pages.specs.Space.{IsSpace};
ghost use Rattle.stable_lines.specs.Slots.{area_file as file_named};
ghost use Rattle.stable_lines.specs.Kept.{IsWellFormed};
ghost use Rattle.line_moves.specs.Changes.{IsPlaceOf};
ghost use Rattle.line_moves.specs.Lines.{IsStarted};
ghost use Rattle.guarded_root.specs.Guarded.{AddsOnly, RunsBehind};
ghost use Rattle.guarded_lines.specs.Laying.{IsArea, HasRoom, page_of, PutsOn, LaysOn, IsLineSlot, IsLaidSlot, Lays};

use crate::entering::enter_owner;
use area_files::slot_of;
use guarded_root::write_guarded;
use line_moves::{Place, area_file, put_on};
use line_store::Fault;
use rdb_outside::Disk;
use rdb_page::{Head, put_head};
use rdb_types::{Dbkey, Line};
use slot_fields::is_zeros;

// Gives a page that was never used its head, and leaves any other.
fn start(page: &mut [u8], place: Place, owner: u32, class: u16)
    requires size { length page.old ≡ 1024 }
    requires class { IsClass class }
    ensures size { length page.new ≡ 1024 }
    ensures started { IsStarted place owner class page.old page.new }
{
    if is_zeros(page) {
        put_head(
            page,
            &Head {
                page: place.page,
                owner,
                class,
            },
        );
    }
}

// Puts a line on its page, which gets a head where it was never used.
fn put<D: Disk>(
    disk: &mut D,
    key: Dbkey,
    place: Place,
    class: u16,
    value: &Line,
) -> Result<(), Fault>
    requires place { IsPlaceOf key place }
    requires class { IsClass class }
    ensures failed { IsErrOf result Fault.Failed
        → Rose (D.view disk.old).faults (D.view disk.new).faults }
    ensures bad { (file : File) (slot : ℕ) → IsErrOf result (Fault.Bad file slot)
        → IsTrue (D.view disk.old).tells
        → let old = (D.view disk.old).content (file_named place.file) (place.page - 1) in
        IsPageOf place.file place.page old → HasRoom key class old → IsAllowedLine class value.now → ⊥ }
    ensures put { OnOk result (IsTrue (D.view disk.old).tells
        → let old = (D.view disk.old).content (file_named place.file) (place.page - 1) in
        IsPageOf place.file place.page old → HasRoom key class old
        → PutsOn key place class value.now (D.view disk.old).content (D.view disk.new).content) }

    // Whatever it answers.
    ensures runs { RunsBehind IsArea (D.view disk.old) (D.view disk.new) }
    ensures adds { IsTrue (D.view disk.old).tells
        → let old = (D.view disk.old).content (file_named place.file) (place.page - 1) in
        IsPageOf place.file place.page old → HasRoom key class old
        → AddsOnly (IsLineSlot (D.view disk.old).content key place class value.now) (D.view disk.old) (D.view disk.new) }
{
    let file = area_file(place.file);
    let slot = slot_of(place.page);
    let mut page = [0; 1024];
    disk.read(file, slot, &mut page)?;
    start(&mut page, place, key.area, class);
    let Ok(()) = put_on(&mut page, key, place, value) else {
        return Err(Fault::Bad(file, slot));
    };
    write_guarded(disk, file, slot, &page)?;
    Ok(())
}

/// Lays a line on its page, which becomes one of its logical area and of this class where it was never used; then its space page says so too. Each of both pages is read and written once.
pub fn lay_line<D: Disk>(
    disk: &mut D,
    key: Dbkey,
    place: Place,
    class: u16,
    value: &Line,
) -> Result<(), Fault>
    requires place { IsPlaceOf key place }
    requires class { IsClass class }
    ensures failed { IsErrOf result Fault.Failed
        → Rose (D.view disk.old).faults (D.view disk.new).faults }

    // It is refused only where a page fails its decoder, or where the page has no room for the line.
    ensures bad { (file : File) (slot : ℕ) → IsErrOf result (Fault.Bad file slot)
        → IsTrue (D.view disk.old).tells
        → IsSpace ((D.view disk.old).content (file_named place.file) (space_of place.page - 1)) (space_of place.page)
        → let old = (D.view disk.old).content (file_named place.file) (place.page - 1) in
        IsPageOf place.file place.page old → HasRoom key class old → IsAllowedLine class value.now → ⊥ }

    // The line stands on its page, and the space page says whose that is; all else is as it was.
    ensures slots { OnOk result (IsTrue (D.view disk.old).tells
        → let old = (D.view disk.old).content (file_named place.file) (place.page - 1) in
        IsPageOf place.file place.page old → HasRoom key class old
        → LaysOn key place class value.now (D.view disk.old).content (D.view disk.new).content) }

    // So, where the content is well-formed, it stays so, the line stands, and the others are as they were.
    ensures laid { OnOk result (IsTrue (D.view disk.old).tells
        → (pages : ℕ) → IsWellFormed (D.view disk.old).content pages → key.page ≤ pages
        → HasRoom key class (page_of (D.view disk.old).content key)
        → Lays pages key class value.now (D.view disk.old).content (D.view disk.new).content) }

    // Whatever it answers, it writes none but area files.
    ensures runs { RunsBehind IsArea (D.view disk.old) (D.view disk.new) }

    // Whatever it answers, it adds to what a crash may leave those two slots alone, at every moment.
    ensures adds { IsTrue (D.view disk.old).tells
        → let old = (D.view disk.old).content (file_named place.file) (place.page - 1) in
        IsPageOf place.file place.page old → HasRoom key class old
        → AddsOnly (IsLaidSlot (D.view disk.old).content key place class value.now) (D.view disk.old) (D.view disk.new) }
{
    enter_owner(disk, place, key.area)?;
    put(disk, key, place, class, value)
}
