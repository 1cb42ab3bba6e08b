// Before-images.
ghost use Rattle.std.specs.Prelude.{◌≡◌, ◌-◌, ◌^◌, ◌<◌, ℕ, length, Some, OnOk, IsErrOf, IsTrue};
ghost use Rattle.rdb_types.specs.declared.file.FileId.{FileId as File};
ghost use Rattle.line_store.specs.rdb_page.Whole.{IsPageOf};
ghost use Rattle.line_store.specs.rdb_outside.Causes.{Rose};
ghost use Rattle.line_store.specs.rdb_outside.Disk.{Adds, Pending};
ghost use Rattle.stable_lines.specs.ruj_journal.Entry.{IsEntry};
ghost use Rattle.stable_lines.specs.Slots.{area_file as file_named, ruj_file as journal_named, entry_at, line_at as line_in_image};
ghost use Rattle.stable_lines.specs.Image.{IsNoneOf};
ghost use Rattle.stable_lines.specs.Progress.{Open, Progress};
ghost use Rattle.stable_lines.specs.Facts.{Facts};
ghost use Rattle.line_moves.specs.Calls.{OnlyWrites};
ghost use Rattle.line_moves.specs.Changes.{IsPlaceOf};

use crate::lines::line_at;
use crate::places::{Place, ruj_file};
use line_store::{Disk, Fault};
use rdb_types::{Dbkey, Tsn};
use stable_lines::{RujEntry, put_entry};

/// Journals a line as it stands, in a slot behind the entries of the transaction that are stable.
pub fn write_before_image<D: Disk>(
    disk: &mut D,
    member: u32,
    tsn: Tsn,
    index: u32,
    key: Dbkey,
    place: Place,
) -> Result<(), Fault>
    requires tsn { tsn.number < 2 ^ 62 }
    requires place { IsPlaceOf key place }
    ensures writes { OnlyWrites (journal_named member) index (D.view disk.old) (D.view disk.new) }
    ensures failed { IsErrOf result Fault.Failed
        → Rose (D.view disk.old).faults (D.view disk.new).faults }
    ensures bad { (file : File) (slot : ℕ) → IsErrOf result (Fault.Bad file slot)
        → IsTrue (D.view disk.old).tells
        → IsPageOf place.file place.page
        ((D.view disk.old).content (file_named place.file) (place.page - 1)) → ⊥ }

    // The entry stands, with the line as it was.
    ensures noted { OnOk result (IsTrue (D.view disk.old).tells
        → let before = line_in_image (D.view disk.old).content key in
        IsEntry ((D.view disk.new).content (journal_named member) index)
        (entry_at tsn index (record { key = key; before = before }))) }
    ensures adds { OnOk result (IsTrue (D.view disk.old).tells
        → let bytes = (D.view disk.new).content (journal_named member) index in
        Adds (journal_named member) index bytes (D.view disk.old) (D.view disk.new)) }

    // Whatever it answers, the facts stay.
    ensures keeps { IsTrue (D.view disk.old).tells → (now : Progress) (transaction : Open)
        → Facts (Pending (D.view disk.old)) now
        → now.going member ≡ Some transaction → tsn ≡ transaction.tsn
        → IsNoneOf key transaction.entries → length transaction.entries < index
        → Facts (Pending (D.view disk.new)) now }
{
    let before = line_at(disk, key, place)?;
    let mut slot = [0; 512];
    put_entry(
        &mut slot,
        &RujEntry {
            tsn,
            index,
            key,
            before,
        },
    );
    disk.write(ruj_file(member), index, &slot)?;
    Ok(())
}
