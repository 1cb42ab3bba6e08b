// Before-images put back.
ghost use Rattle.std.specs.Prelude.{◌≡◌, ◌≢◌, ◌-◌, ◌+◌, ◌⊎◌, length, slice_get, ℕ, Some, Ok, OnOk, IsErrOf, IsTrue};
ghost use Rattle.rdb_types.specs.declared.file.FileId.{FileId as File};
ghost use Rattle.rdb_types.specs.declared.keys.Dbkey.{Dbkey as Key};
ghost use Rattle.line_store.specs.rdb_outside.Causes.{Rose};
ghost use Rattle.line_store.specs.rdb_outside.Disk.{Pending, OnlyReads};
ghost use Rattle.line_store.specs.area_files.Areas.{IsDataPage};
ghost use Rattle.stable_lines.specs.Slots.{IsAreaFile, Undo, area_file as file_named, line_at as line_named};
ghost use Rattle.stable_lines.specs.Progress.{Open, Progress};
ghost use Rattle.stable_lines.specs.Facts.{IsNotOpen, Facts};
ghost use Rattle.line_moves.specs.declared.undoing.Undone.TheVariants.{Nothing};
ghost use Rattle.line_moves.specs.Calls.{OnlyWrites};
ghost use Rattle.line_moves.specs.Changes.{IsUndoing, PutsOne};
ghost use Rattle.line_moves.specs.declared.places.Place.{Place as Spot};
ghost use Rattle.line_moves.specs.Classes.{HaveTheirClasses, KeepsOwners};

use crate::lines::line_at;
use crate::pages::change_line;
use crate::places::{Place, place_of, ruj_file};
use line_store::{Disk, Fault};
use rdb_types::Tsn;
use stable_lines::read_entry;

/// What the undoing of an entry did.
#[derive(Clone, Copy, Debug, PartialEq, Eq)]
pub enum Undone {
    /// The line doesn't bear the transaction's number, or there is none.
    Nothing,
    /// The page was written.
    Written(Place),
}

/// Puts the before-image of an entry back, where the line bears the transaction's number. It reads all that it needs, so it serves a rollback, a death and an opening alike. What was written is left in `page`.
pub fn undo_line<D: Disk>(
    disk: &mut D,
    pages: u32,
    member: u32,
    tsn: Tsn,
    index: u32,
    page: &mut [u8],
) -> Result<Undone, Fault>
    requires { length page.old ≡ 1024 }
    ensures size { length page.new ≡ 1024 }

    // It writes one page at most.
    ensures writes { (number : ℕ) × (slot : ℕ) × IsDataPage (slot + 1)
        × OnlyWrites (file_named number) slot (D.view disk.old) (D.view disk.new) }
    ensures nothing { result ≡ Ok Nothing → OnlyReads (D.view disk.old) (D.view disk.new) }

    // Whatever it answers, the facts stay.
    ensures keeps { IsTrue (D.view disk.old).tells → (now : Progress) (transaction : Open)
        → IsUndoing (Pending (D.view disk.old)) now member transaction index pages
        → tsn ≡ transaction.tsn → Facts (Pending (D.view disk.new)) now }
    ensures failed { IsErrOf result Fault.Failed
        → Rose (D.view disk.old).faults (D.view disk.new).faults }

    // The line of the entry doesn't bear the transaction any more, and every other one is as it was.
    ensures undone { OnOk result (IsTrue (D.view disk.old).tells
        → (now : Progress) (transaction : Open) (undo : Undo)
        → IsUndoing (Pending (D.view disk.old)) now member transaction index pages
        → tsn ≡ transaction.tsn → slice_get transaction.entries (index - 1) ≡ Some undo
        → (line_named (D.view disk.new).content undo.key).tsn.number ≢ transaction.tsn.number) }
    ensures others { OnOk result (IsTrue (D.view disk.old).tells
        → (now : Progress) (transaction : Open) (undo : Undo) (key : Key)
        → IsUndoing (Pending (D.view disk.old)) now member transaction index pages
        → tsn ≡ transaction.tsn → slice_get transaction.entries (index - 1) ≡ Some undo
        → key ≢ undo.key
        → line_named (D.view disk.new).content key ≡ line_named (D.view disk.old).content key) }

    // Each line is as it was, or bears no open transaction.
    ensures ended { OnOk result (IsTrue (D.view disk.old).tells
        → (now : Progress) (transaction : Open) (key : Key)
        → IsUndoing (Pending (D.view disk.old)) now member transaction index pages
        → tsn ≡ transaction.tsn
        → (line_named (D.view disk.new).content key ≡ line_named (D.view disk.old).content key)
        ⊎ IsNotOpen now (line_named (D.view disk.new).content key).tsn.number) }

    // Whatever it answers, each line is as it was, or it is the entry's and is the before-image again: its image, its transaction and its chain.
    ensures restores { IsTrue (D.view disk.old).tells
        → (now : Progress) (transaction : Open) (undo : Undo)
        → IsUndoing (Pending (D.view disk.old)) now member transaction index pages
        → tsn ≡ transaction.tsn → slice_get transaction.entries (index - 1) ≡ Some undo
        → PutsOne undo.key undo.before (D.view disk.old).content (D.view disk.new).content }

    // Whatever it answers, pages have the classes of their areas where they had.
    ensures classes { IsTrue (D.view disk.old).tells → (now : Progress)
        → Facts (Pending (D.view disk.old)) now → (classes : ℕ → ℕ)
        → HaveTheirClasses classes (Pending (D.view disk.old))
        → HaveTheirClasses classes (Pending (D.view disk.new)) }

    // Whatever it answers, a page that may have no other area's owner has none.
    ensures owners { IsTrue (D.view disk.old).tells → (now : Progress)
        → Facts (Pending (D.view disk.old)) now → (there : Spot) (area : ℕ)
        → IsAreaFile there.file → IsDataPage there.page
        → KeepsOwners (Pending (D.view disk.old)) (Pending (D.view disk.new)) there area }

    // No page is refused.
    ensures bad { (file : File) (slot : ℕ) → IsErrOf result (Fault.Bad file slot)
        → IsTrue (D.view disk.old).tells → (now : Progress) (transaction : Open)
        → IsUndoing (Pending (D.view disk.old)) now member transaction index pages
        → tsn ≡ transaction.tsn → ⊥ }
{
    let journal = ruj_file(member);
    let mut slot = [0; 512];
    disk.read(journal, index, &mut slot)?;
    let Some(entry) = read_entry(&slot) else {
        return Ok(Undone::Nothing);
    };
    let Some(place) = place_of(entry.key) else {
        return Ok(Undone::Nothing);
    };
    if place.page > pages {
        return Ok(Undone::Nothing);
    }
    let line = line_at(disk, entry.key, place)?;
    if line.tsn.number != tsn.number {
        return Ok(Undone::Nothing);
    }
    match change_line(disk, entry.key, place, &entry.before, page) {
        Ok(()) => Ok(Undone::Written(place)),
        Err(fault) => Err(fault),
    }
}
