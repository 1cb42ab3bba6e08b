// A database opened and taken into use.
ghost use Rattle.std.specs.Prelude.{◌≡◌, ◌≤◌, ℕ, IfOk, IsErrOf, IsTrue};
ghost use Rattle.rdb_types.specs.declared.file.FileId.{FileId as File};
ghost use Rattle.rdb_outside.specs.Causes.{Rose};
ghost use Rattle.rdb_outside.specs.Disk.{LeavesOnly};
ghost use Rattle.line_view.specs.Knowledge.{Lines};
ghost use Rattle.stable_lines.specs.Journal.{Journal};
ghost use Rattle.stable_lines.specs.Kept.{Kept};
ghost use Rattle.database_opening.specs.Others.{KeepsFile};
ghost use Rattle.journal_anew.specs.Anew.{IsInUse};
ghost use Rattle.rmu_keeping.specs.Keeping.{HasNumbers, WithinOpening, IsKept};

use database_opening::{StoreStart, open_database};
use journal_anew::take_into_use;
use line_store::Fault;
use rdb_outside::Disk;

/// Opens a database, whatever a crash left of it, and takes it into use: where it was restored and not used since, its journal is begun anew.
pub(crate) fn open_in_use<D: Disk>(disk: &mut D) -> Result<StoreStart, Fault>
    ensures told { (D.view disk.new).tells ≡ (D.view disk.old).tells }
    ensures no_fewer { (D.view disk.old).faults ≤ (D.view disk.new).faults }
    ensures failed { IsErrOf result Fault.Failed
        → Rose (D.view disk.old).faults (D.view disk.new).faults }
    ensures bad { (file : File) (slot : ℕ) → IsErrOf result (Fault.Bad file slot)
        → IsTrue (D.view disk.old).tells → (classes : ℕ → ℕ) (lines : Lines) (journal : Journal)
        → Kept classes lines journal (D.view disk.old).content → HasNumbers journal → ⊥ }
    ensures used { IfOk result (λ used. IsTrue (D.view disk.old).tells
        → (classes : ℕ → ℕ) (lines : Lines) (journal : Journal)
        → Kept classes lines journal (D.view disk.old).content
        → IsInUse classes lines journal (D.view disk.new) used) }
    ensures within { IsTrue (D.view disk.old).tells → (classes : ℕ → ℕ) (lines : Lines) (journal : Journal)
        → Kept classes lines journal (D.view disk.old).content
        → LeavesOnly (D.view disk.old) (D.view disk.new) (WithinOpening (D.view disk.old) classes lines) }
    ensures others { IsTrue (D.view disk.old).tells → (file : File) → IsKept file
        → KeepsFile file (D.view disk.old) (D.view disk.new) }
{
    let start = open_database(disk)?;
    take_into_use(disk, start)
}
