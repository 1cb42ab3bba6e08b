// A database is opened, and taken into use.
ghost use Rattle.std.specs.Prelude.{◌≡◌, ◌-◌, ◌≤◌, ℕ, IfOk, IsErrOf, IsTrue};
ghost use Rattle.rdb_types.specs.declared.file.FileId.{FileId as File};
ghost use Rattle.rdb_outside.specs.Causes.{Rose};
ghost use Rattle.rdb_outside.specs.Disk.{LeavesOnly};
ghost use Rattle.root_file.specs.declared.Root.{Root};
ghost use Rattle.root_file.specs.Root.{AreLimits, IsRoot};
ghost use Rattle.area_files.specs.Areas.{IsPage, IsSpacePage};
ghost use Rattle.new_database.specs.Maker.{root_file as root_named};
ghost use Rattle.line_view.specs.Knowledge.{Lines};
ghost use Rattle.stable_lines.specs.Slots.{area_file as area_named};
ghost use Rattle.stable_lines.specs.Journal.{Journal};
ghost use Rattle.stable_lines.specs.Kept.{Kept};
ghost use Rattle.line_moves.specs.Classes.{IsClassed};
ghost use Rattle.database_opening.specs.Others.{IsOther, KeepsFile};
ghost use Rattle.database_opening.specs.Start.{IsStart};
ghost use Rattle.journal_anew.specs.Anew.{IsApart, journal_in_use};
ghost use Rattle.opened_store.specs.Opened.{AreUsedUp, IsLeft};

use database_opening::{StoreStart, open_database};
use journal_anew::take_into_use;
use line_store::Fault;
use rdb_outside::Disk;

/// Opens a database, whatever a crash left of it, and takes it into use: where it was restored and not used since, its journal is begun anew.
pub(crate) fn open_in_use<D: Disk>(disk: &mut D) -> Result<StoreStart, Fault>
    ensures told { (D.view disk.new).tells ≡ (D.view disk.old).tells }
    ensures no_fewer { (D.view disk.old).faults ≤ (D.view disk.new).faults }
    ensures failed { IsErrOf result Fault.Failed
        → Rose (D.view disk.old).faults (D.view disk.new).faults }
    ensures bad { (file : File) (slot : ℕ) → IsErrOf result (Fault.Bad file slot)
        → IsTrue (D.view disk.old).tells
        → (classes : ℕ → ℕ) (lines : Lines) (journal : Journal)
        → (kept : Kept classes lines journal (D.view disk.old).content)
        → AreUsedUp journal kept.root }

    // It has the limits of the root, and draws its numbers from the ceiling on.
    ensures allowed { IfOk result (λ start. AreLimits start.root.limits) }
    ensures first { IfOk result (λ start. 1 ≤ start.next_tsn) }
    ensures limits { IfOk result (λ start. IsTrue (D.view disk.old).tells → (root : Root)
        → IsRoot ((D.view disk.old).content root_named 0) root
        → start.root.limits ≡ root.limits) }
    ensures number { IfOk result (λ start. IsTrue (D.view disk.old).tells → (root : Root)
        → IsRoot ((D.view disk.old).content root_named 0) root
        → start.next_tsn ≡ root.ceiling) }

    // The store begins with the lines that the image stands for, behind the groups of the journal in use.
    ensures begins { IfOk result (λ start. IsTrue (D.view disk.old).tells
        → (classes : ℕ → ℕ) (lines : Lines) (journal : Journal)
        → (kept : Kept classes lines journal (D.view disk.old).content)
        → IsStart classes lines (journal_in_use kept.root journal) (D.view disk.new) start) }

    // Whatever it answers, a crash at any moment of it leaves what one before might have left, or an image of these lines.
    ensures stands { IsTrue (D.view disk.old).tells
        → (classes : ℕ → ℕ) (lines : Lines) (journal : Journal)
        → (kept : Kept classes lines journal (D.view disk.old).content)
        → LeavesOnly (D.view disk.old) (D.view disk.new)
        (IsLeft (D.view disk.old) classes lines journal kept.root) }

    // Whatever it answers, pages have the classes of their areas where they had, and are whose they were.
    ensures classes { IsTrue (D.view disk.old).tells
        → (classes : ℕ → ℕ) (lines : Lines) (journal : Journal)
        → Kept classes lines journal (D.view disk.old).content
        → (by_area : ℕ → ℕ) → IsClassed by_area (D.view disk.old).content
        → IsClassed by_area (D.view disk.new).content }
    ensures spaces { IsTrue (D.view disk.old).tells → (file page : ℕ) → IsPage page → IsSpacePage page
        → (D.view disk.new).content (area_named file) (page - 1)
        ≡ (D.view disk.old).content (area_named file) (page - 1) }

    // Whatever it answers, backups and copies of the journal stay as they were, at every moment.
    ensures beside { IsTrue (D.view disk.old).tells → (file : File) → IsOther file → IsApart file
        → KeepsFile file (D.view disk.old) (D.view disk.new) }
{
    let start = open_database(disk)?;
    take_into_use(disk, start)
}
