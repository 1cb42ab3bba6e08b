// Before-images.
ghost use Rattle.std.specs.Prelude.{◌≡◌, ◌-◌, ◌+◌, ◌^◌, ◌<◌, ◌++◌, ◌∷◌, [], ℕ, List, length, OnOk, IsErrOf, IsTrue};
ghost use Rattle.rdb_types.specs.declared.file.FileId.{FileId as File};
ghost use Rattle.rdb_page.specs.Whole.{IsPageOf};
ghost use Rattle.rdb_outside.specs.Causes.{Rose};
ghost use Rattle.rdb_outside.specs.Disk.{Pending};
ghost use Rattle.line_moves.specs.stable_lines.Slots.{area_file, ruj_file, line_at, Undo};
ghost use Rattle.line_moves.specs.stable_lines.Progress.{Open, Progress};
ghost use Rattle.line_moves.specs.stable_lines.Facts.{Facts};
ghost use Rattle.line_moves.specs.Calls.{OnlyWrites};
ghost use Rattle.line_moves.specs.Changes.{IsPlaceOf};
ghost use Rattle.line_seat.specs.Seats.{MayChange, SeatFacts};

use line_moves::{Fault, Place, write_before_image};
use rdb_outside::Disk;
use rdb_types::{Dbkey, Tsn};

/// Journals a line as it stands, behind the entries that the transaction has.
pub fn journal_line<D: Disk>(
    disk: &mut D,
    member: u32,
    tsn: Tsn,
    index: u32,
    key: Dbkey,
    place: Place,
) -> Result<(), Fault>
    requires tsn { tsn.number < 2 ^ 62 }
    requires place { IsPlaceOf key place }
    ensures writes { OnlyWrites (ruj_file member) index (D.view disk.old) (D.view disk.new) }
    ensures failed { IsErrOf result Fault.Failed
        → Rose (D.view disk.old).faults (D.view disk.new).faults }
    ensures bad { (file : File) (slot : ℕ) → IsErrOf result (Fault.Bad file slot)
        → IsTrue (D.view disk.old).tells
        → IsPageOf place.file place.page
        ((D.view disk.old).content (area_file place.file) (place.page - 1)) → ⊥ }

    // Whatever it answers, the facts stay.
    ensures keeps { IsTrue (D.view disk.old).tells
        → (now : Progress) (transaction : Open) (all : List Undo) (stable : ℕ)
        → Facts (Pending (D.view disk.old)) now
        → SeatFacts (D.view disk.old) now member transaction all stable
        → tsn ≡ transaction.tsn → index ≡ length all + 1
        → Facts (Pending (D.view disk.new)) now }

    // The seat has one entry more.
    ensures journalled { OnOk result (IsTrue (D.view disk.old).tells
        → (now : Progress) (transaction : Open) (all : List Undo) (stable : ℕ)
        → Facts (Pending (D.view disk.old)) now
        → SeatFacts (D.view disk.old) now member transaction all stable
        → tsn ≡ transaction.tsn → index ≡ length all + 1
        → MayChange (D.view disk.old) now member transaction all key
        → let before = line_at (D.view disk.old).content key in
        SeatFacts (D.view disk.new) now member transaction
        (all ++ (record { key = key; before = before }) ∷ []) stable) }
{
    write_before_image(disk, member, tsn, index, key, place)?;
    Ok(())
}
