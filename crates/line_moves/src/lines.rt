// Lines as they stand on a disk.
ghost use Rattle.std.specs.Prelude.{◌≡◌, ◌-◌, ℕ, length, IfOk, OnErr, IsErrOf, IsTrue};
ghost use Rattle.rdb_types.specs.declared.file.FileId.{FileId as File};
ghost use Rattle.line_store.specs.rdb_page.Lines.{never as never_used, IsAllowedLine};
ghost use Rattle.line_store.specs.rdb_page.Whole.{IsPageOf};
ghost use Rattle.line_store.specs.rdb_outside.Causes.{Rose};
ghost use Rattle.line_store.specs.rdb_outside.Disk.{OnlyReads};
ghost use Rattle.stable_lines.specs.Slots.{area_file as file_named, line_on, line_at as line_in_image};
ghost use Rattle.line_moves.specs.Changes.{IsPlaceOf};

use crate::places::{Place, area_file};
use line_store::{BadPage, Disk, Fault, lines_of, read_head, read_line, slot_of};
use rdb_types::{Dbkey, Image, Line, LineState, Tsn};

// A line that was never used.
fn never() -> Line
    ensures { result ≡ never_used }
{
    Line {
        state: LineState::Never,
        tsn: Tsn { number: 0 },
        chain: 0,
        image: Image::from_bytes(b""),
    }
}

// The line of a key on its page, which was never used where the page has no place for it.
fn line_in(page: &[u8], key: Dbkey, place: Place) -> Result<Line, BadPage>
    requires size { length page.now ≡ 1024 }
    requires place { IsPlaceOf key place }
    ensures line { IfOk result (λ line. line ≡ line_on key page.now) }
    ensures allowed { IfOk result (IsAllowedLine 440) }
    ensures refused { OnErr result (IsPageOf place.file place.page page.now → ⊥) }
{
    let Some(head) = read_head(page, place.file, place.page)? else {
        return Ok(never());
    };
    if head.owner != key.area || key.line >= lines_of(head.class) {
        return Ok(never());
    }
    let line = read_line(page, key.line)?;
    Ok(line)
}

/// The line of a key as reads give it.
pub fn line_at<D: Disk>(disk: &mut D, key: Dbkey, place: Place) -> Result<Line, Fault>
    requires { IsPlaceOf key place }
    ensures reads { OnlyReads (D.view disk.old) (D.view disk.new) }
    ensures line { IfOk result (λ line. IsTrue (D.view disk.old).tells
        → line ≡ line_in_image (D.view disk.old).content key) }
    ensures allowed { IfOk result (IsAllowedLine 440) }
    ensures failed { IsErrOf result Fault.Failed
        → Rose (D.view disk.old).faults (D.view disk.new).faults }
    ensures bad { (file : File) (slot : ℕ) → IsErrOf result (Fault.Bad file slot)
        → IsTrue (D.view disk.old).tells
        → IsPageOf place.file place.page
        ((D.view disk.old).content (file_named place.file) (place.page - 1)) → ⊥ }
{
    let file = area_file(place.file);
    let slot = slot_of(place.page);
    let mut page = [0; 1024];
    disk.read(file, slot, &mut page)?;
    match line_in(&page, key, place) {
        Ok(line) => Ok(line),
        Err(_) => Err(Fault::Bad(file, slot)),
    }
}
