// An opening from its beginning to its end.
ghost use Rattle.std.specs.Prelude.{◌≡◌, ◌≤◌, ◌⊎◌, true, false, ℕ, IfOk, IsErrOf, IsTrue};
ghost use Rattle.rdb_types.specs.declared.file.FileId.{FileId as File};
ghost use Rattle.rdb_outside.specs.Causes.{Rose};
ghost use Rattle.rdb_outside.specs.Disk.{LeavesOnly, IsPending};
ghost use Rattle.root_file.specs.Root.{IsRoot, IsAllowed};
ghost use Rattle.new_database.specs.Maker.{root_file as root_named};
ghost use Rattle.line_view.specs.Knowledge.{Lines};
ghost use Rattle.line_opening.specs.stable_lines.Journal.{Journal};
ghost use Rattle.line_opening.specs.stable_lines.Kept.{Kept};
ghost use Rattle.line_opening.specs.line_moves.Classes.{IsClassed};
ghost use Rattle.database_opening.specs.declared.stages.OpeningStage.TheVariants.{Opened};
ghost use Rattle.database_opening.specs.Others.{IsOther, KeepsFile};
ghost use Rattle.database_opening.specs.Start.{IsStart};
ghost use Rattle.database_opening.specs.Untouched.{KeepsRootAndSpaces};

use crate::beginning::begin;
use crate::stages::OpeningStage;
use crate::start::{StoreStart, start_of};
use crate::steps::step;
use line_store::Fault;
use rdb_outside::Disk;

// Whether an opening is at its end.
fn is_over(stage: OpeningStage) -> bool
    ensures yes { result ≡ true → stage ≡ Opened }
    ensures no { result ≡ false → stage ≡ Opened → ⊥ }
{
    matches!(stage, OpeningStage::Opened)
}

/// Opens a database, whatever a crash left of it, and answers where a store begins. It makes as many calls of `step` as there are entries to be undone, and 35 more at most.
pub fn open_database<D: Disk>(disk: &mut D) -> Result<StoreStart, Fault>
    ensures told { (D.view disk.new).tells ≡ (D.view disk.old).tells }
    ensures no_fewer { (D.view disk.old).faults ≤ (D.view disk.new).faults }
    ensures failed { IsErrOf result Fault.Failed
        → Rose (D.view disk.old).faults (D.view disk.new).faults }

    ensures root { IfOk result (λ start. IsAllowed start.root) }
    ensures number { IfOk result (λ start. start.next_tsn ≡ start.root.ceiling) }
    ensures its_root { IfOk result (λ start. IsTrue (D.view disk.old).tells
        → IsRoot ((D.view disk.old).content root_named 0) start.root) }

    // A kept image is never refused.
    ensures bad { (file : File) (slot : ℕ) → IsErrOf result (Fault.Bad file slot)
        → IsTrue (D.view disk.old).tells
        → (classes : ℕ → ℕ) (lines : Lines) (journal : Journal)
        → Kept classes lines journal (D.view disk.old).content → ⊥ }

    // The store begins with the lines that the image stands for.
    ensures begins { IfOk result (λ start. IsTrue (D.view disk.old).tells
        → (classes : ℕ → ℕ) (lines : Lines) (journal : Journal)
        → Kept classes lines journal (D.view disk.old).content
        → IsStart classes lines journal (D.view disk.new) start) }

    // Whatever it answers, a crash at any moment of it leaves what one before might have left, or an image of these lines.
    ensures stands { IsTrue (D.view disk.old).tells
        → (classes : ℕ → ℕ) (lines : Lines) (journal : Journal)
        → Kept classes lines journal (D.view disk.old).content
        → LeavesOnly (D.view disk.old) (D.view disk.new)
        (λ image. IsPending (D.view disk.old) image ⊎ Kept classes lines journal image) }

    // Whatever it answers, pages have the classes of their areas where they had, and are whose they were.
    ensures classes { IsTrue (D.view disk.old).tells
        → (classes : ℕ → ℕ) (lines : Lines) (journal : Journal)
        → Kept classes lines journal (D.view disk.old).content
        → (by_area : ℕ → ℕ) → IsClassed by_area (D.view disk.old).content
        → IsClassed by_area (D.view disk.new).content }
    ensures untouched { IsTrue (D.view disk.old).tells
        → KeepsRootAndSpaces (D.view disk.old).content (D.view disk.new).content }

    // Whatever it answers, it writes no file but areas and before-image journals: the after-image journal, what was kept of it, and backups are as they were.
    ensures others { IsTrue (D.view disk.old).tells → (file : File) → IsOther file
        → KeepsFile file (D.view disk.old) (D.view disk.new) }
{
    let opening = begin(disk)?;
    let mut stage = opening.stage;
    'steps: while !is_over(stage) {
        stage = step(disk, &opening.found, stage)?;
    }
    Ok(start_of(disk, &opening.found))
}
