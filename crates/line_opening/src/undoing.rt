// The entries of a member's transaction, undone.
ghost use Rattle.std.specs.Prelude.{◌≡◌, ◌≤◌, ◌<◌, ◌+◌, ◌⊎◌, ℕ, length, IfOk, OnOk, IsErrOf, IsTrue};
ghost use Rattle.rdb_types.specs.declared.file.FileId.{FileId as File};
ghost use Rattle.rdb_types.specs.declared.keys.Dbkey.{Dbkey as Key};
ghost use Rattle.rdb_outside.specs.Causes.{Rose};
ghost use Rattle.rdb_outside.specs.Disk.{Pending, LeavesOnly};
ghost use Rattle.line_moves.specs.area_files.Areas.{IsDataPage};
ghost use Rattle.line_moves.specs.stable_lines.Slots.{area_file as file_named, line_at as line_named, IsAreaFile};
ghost use Rattle.line_moves.specs.stable_lines.Progress.{Open, Progress};
ghost use Rattle.line_moves.specs.stable_lines.Facts.{IsNotOpen, Facts, StandsAs};
ghost use Rattle.line_moves.specs.Calls.{OnlyWrites};
ghost use Rattle.line_moves.specs.declared.places.Place.{Place as Spot};
ghost use Rattle.line_moves.specs.Classes.{HaveTheirClasses, KeepsOwners};
ghost use Rattle.line_opening.specs.Undoing.{AreUndone, MayUndo, PutsBack};

use line_moves::{Fault, Undone, undo_line};
use rdb_outside::Disk;
use rdb_types::Tsn;

/// Undoes entries of a member's transaction, the last one first, up to the first whose page is written. The answer is how many are left. Two reads for each entry that is passed over, and one write at most.
pub fn undo_next<D: Disk>(
    disk: &mut D,
    pages: u32,
    member: u32,
    tsn: Tsn,
    entries: u32,
    page: &mut [u8],
) -> Result<u32, Fault>
    requires { length page.old ≡ 1024 }
    ensures size { length page.new ≡ 1024 }
    ensures told { (D.view disk.new).tells ≡ (D.view disk.old).tells }
    ensures no_fewer { (D.view disk.old).faults ≤ (D.view disk.new).faults }
    ensures failed { IsErrOf result Fault.Failed
        → Rose (D.view disk.old).faults (D.view disk.new).faults }
    ensures fewer { IfOk result (λ rest. 1 ≤ entries → rest < entries) }

    // It writes one page at most.
    ensures writes { (number : ℕ) × (slot : ℕ) × IsDataPage (slot + 1)
        × OnlyWrites (file_named number) slot (D.view disk.old) (D.view disk.new) }

    // Whatever it answers, each line is as it was, or its before-image in an entry: the image, the transaction and the chain.
    ensures restores { IsTrue (D.view disk.old).tells → (now : Progress) (transaction : Open)
        → MayUndo (Pending (D.view disk.old)) now member transaction entries pages
        → tsn ≡ transaction.tsn
        → PutsBack transaction (D.view disk.old).content (D.view disk.new).content }

    // Whatever it answers, pages have the classes of their areas where they had.
    ensures classes { IsTrue (D.view disk.old).tells → (now : Progress)
        → Facts (Pending (D.view disk.old)) now → (classes : ℕ → ℕ)
        → HaveTheirClasses classes (Pending (D.view disk.old))
        → HaveTheirClasses classes (Pending (D.view disk.new)) }

    // Whatever it answers, a page that may have no other area's owner has none.
    ensures owners { IsTrue (D.view disk.old).tells → (now : Progress)
        → Facts (Pending (D.view disk.old)) now → (there : Spot) (area : ℕ)
        → IsAreaFile there.file → IsDataPage there.page
        → KeepsOwners (Pending (D.view disk.old)) (Pending (D.view disk.new)) there area }

    // Whatever it answers, the facts stay.
    ensures keeps { IsTrue (D.view disk.old).tells → (now : Progress) (transaction : Open)
        → MayUndo (Pending (D.view disk.old)) now member transaction entries pages
        → tsn ≡ transaction.tsn → Facts (Pending (D.view disk.new)) now }

    // The lines of the entries behind those that are left don't bear the transaction any more.
    ensures undone { IfOk result (λ rest. IsTrue (D.view disk.old).tells
        → (now : Progress) (transaction : Open)
        → MayUndo (Pending (D.view disk.old)) now member transaction entries pages
        → tsn ≡ transaction.tsn
        → AreUndone (D.view disk.old).content transaction entries
        → AreUndone (D.view disk.new).content transaction rest) }

    // Each line is as it was, or bears no open transaction: what was undone of others is so still.
    ensures ended { OnOk result (IsTrue (D.view disk.old).tells
        → (now : Progress) (transaction : Open) (key : Key)
        → MayUndo (Pending (D.view disk.old)) now member transaction entries pages
        → tsn ≡ transaction.tsn
        → (line_named (D.view disk.new).content key ≡ line_named (D.view disk.old).content key)
        ⊎ IsNotOpen now (line_named (D.view disk.new).content key).tsn.number) }

    // A crash at any moment of it leaves an image that stands as before.
    ensures stands { IsTrue (D.view disk.old).tells → (now : Progress) (transaction : Open)
        → MayUndo (Pending (D.view disk.old)) now member transaction entries pages
        → tsn ≡ transaction.tsn → LeavesOnly (D.view disk.old) (D.view disk.new) (StandsAs now) }

    // No page is refused.
    ensures bad { (file : File) (slot : ℕ) → IsErrOf result (Fault.Bad file slot)
        → IsTrue (D.view disk.old).tells → (now : Progress) (transaction : Open)
        → MayUndo (Pending (D.view disk.old)) now member transaction entries pages
        → tsn ≡ transaction.tsn → ⊥ }
{
    for back in 0..entries {
        let index = entries - back;
        match undo_line(disk, pages, member, tsn, index, page)? {
            Undone::Nothing => {}
            Undone::Written(_) => return Ok(index - 1),
        }
    }
    Ok(0)
}
