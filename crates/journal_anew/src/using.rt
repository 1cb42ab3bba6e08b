// The first use of a restored database.
ghost use Rattle.std.specs.Prelude.{◌≡◌, ◌≢◌, ◌≤◌, ◌^◌, ℕ, IfOk, IsErrOf, IsTrue};
ghost use Rattle.rdb_types.specs.declared.file.FileId.{FileId as File};
ghost use Rattle.root_file.specs.Root.{IsAllowed};
ghost use Rattle.rdb_outside.specs.Causes.{Rose};
ghost use Rattle.rdb_outside.specs.Disk.{LeavesOnly};
ghost use Rattle.line_view.specs.Knowledge.{Lines};
ghost use Rattle.stable_lines.specs.Journal.{Journal};
ghost use Rattle.database_opening.specs.Others.{KeepsFile};
ghost use Rattle.database_opening.specs.Start.{IsStart};
ghost use Rattle.journal_anew.specs.Anew.{IsApart, IsInUse, StandsInUse, start_in_use};

use crate::anew::begin_anew;
use database_opening::StoreStart;
use line_moves::{aij_file, make_stable, write_root};
use line_opening::NextGroup;
use line_store::Fault;
use rdb_outside::Disk;
use root_file::Root;

/// Takes a database that was opened into use. Where it was restored and not used since, its journal is begun anew and leaves a number out, so that older backups can't be rolled over what comes now; then its root says that it is whole. Any other database it leaves as it is.
pub fn take_into_use<D: Disk>(disk: &mut D, start: StoreStart) -> Result<StoreStart, Fault>
    requires root { IsAllowed start.root }
    requires ceiling { start.next_tsn ≤ start.root.ceiling }
    ensures told { (D.view disk.new).tells ≡ (D.view disk.old).tells }
    ensures no_fewer { (D.view disk.old).faults ≤ (D.view disk.new).faults }
    ensures failed { IsErrOf result Fault.Failed
        → Rose (D.view disk.old).faults (D.view disk.new).faults }

    // It is refused only where the numbers of groups are spent.
    ensures bad { (file : File) (slot : ℕ) → IsErrOf result (Fault.Bad file slot)
        → 2 ^ 62 ≤ start.next.number }
    ensures restored { (file : File) (slot : ℕ) → IsErrOf result (Fault.Bad file slot)
        → start.root.state ≡ 3 }
    ensures state { IfOk result (λ used. used.root.state ≢ 3) }
    ensures is { IfOk result (λ used. used ≡ start_in_use start) }

    // The store begins with the same lines.
    ensures used { IfOk result (λ used. IsTrue (D.view disk.old).tells
        → (classes : ℕ → ℕ) (lines : Lines) (journal : Journal)
        → IsStart classes lines journal (D.view disk.old) start
        → IsInUse classes lines journal (D.view disk.new) used) }

    // Whatever it answers, a crash at any moment of it leaves the same lines, with the journal or the one in use.
    ensures stands { IsTrue (D.view disk.old).tells
        → (classes : ℕ → ℕ) (lines : Lines) (journal : Journal)
        → IsStart classes lines journal (D.view disk.old) start
        → LeavesOnly (D.view disk.old) (D.view disk.new)
        (StandsInUse classes lines journal start.root) }

    // It writes no file but the journal and the root.
    ensures others { (file : File) → IsApart file → IsTrue (D.view disk.old).tells
        → KeepsFile file (D.view disk.old) (D.view disk.new) }
{
    if start.root.state != 3 {
        return Ok(start);
    }
    if start.next.number >= 1 << 62 {
        return Err(Fault::Bad(aij_file(), 0));
    }
    let first = start.next.number + 1;
    begin_anew(disk, first)?;
    let root = Root {
        state: 1,
        ..start.root
    };
    write_root(disk, &root)?;
    make_stable(disk)?;
    Ok(StoreStart {
        root,
        next_tsn: start.next_tsn,
        next: NextGroup {
            slot: 1,
            number: first,
        },
    })
}
