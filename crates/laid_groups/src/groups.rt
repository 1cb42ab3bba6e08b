// A group on its pages.
ghost use Rattle.std.specs.Prelude.{◌≡◌, ◌≤◌, ◌<◌, ◌^◌, ◌∷◌, [], ℕ, map, slice_get, Some, OnOk, IsErrOf, IsTrue};
ghost use Rattle.rdb_types.specs.declared.file.FileId.{FileId as File};
ghost use Rattle.rdb_outside.specs.Causes.{Rose};
ghost use Rattle.stable_lines.specs.Journal.{write_of};
ghost use Rattle.stable_lines.specs.Rolling.{groups_above};
ghost use Rattle.rolled_lines.specs.HalfLaid.{writes_of};
ghost use Rattle.guarded_root.specs.Guarded.{RunsBehind};
ghost use Rattle.guarded_lines.specs.Laying.{IsArea};
ghost use Rattle.laid_groups.specs.Forward.{Forward, FitLines, FitAll, IsReady, KeepsReady};
ghost use Rattle.laid_groups.specs.Laid.{LaidOver};

use crate::lines::lay_one;
use aij_journal::GroupLine;
use journal_scan::Group;
use line_store::Fault;
use rdb_outside::Disk;
use rdb_types::{FileId, Tsn};

// Lays the lines of a transaction's group, one behind another.
fn lay_lines<D: Disk>(
    disk: &mut D,
    file: FileId,
    slot: u32,
    tsn: Tsn,
    lines: &[GroupLine],
) -> Result<(), Fault>
    ensures failed { IsErrOf result Fault.Failed
        → Rose (D.view disk.old).faults (D.view disk.new).faults }
    ensures bad { (named : File) (at : ℕ) → IsErrOf result (Fault.Bad named at)
        → IsTrue (D.view disk.old).tells → (forward : Forward) → IsReady forward (D.view disk.old)
        → FitLines forward lines.now → tsn.number < forward.top → forward.top ≤ 2 ^ 62 → ⊥ }
    ensures laid { OnOk result (IsTrue (D.view disk.old).tells
        → (forward : Forward) → IsReady forward (D.view disk.old) → FitLines forward lines.now
        → tsn.number < forward.top
        → LaidOver forward (map write_of lines.now) (D.view disk.old).content (D.view disk.new).content) }

    // Whatever it answers.
    ensures runs { RunsBehind IsArea (D.view disk.old) (D.view disk.new) }
    ensures ready { IsTrue (D.view disk.old).tells → (forward : Forward)
        → FitLines forward lines.now → tsn.number < forward.top
        → KeepsReady forward (D.view disk.old) (D.view disk.new) }
{
    for line in lines {
        lay_one(disk, file, slot, tsn, line)?;
    }
    Ok(())
}

/// Lays the group that begins in this slot of the file, where its number is above the last one that is behind.
pub(crate) fn lay_above<D: Disk>(
    disk: &mut D,
    file: FileId,
    slot: u32,
    last: u64,
    group: Group,
) -> Result<(), Fault>
    ensures failed { IsErrOf result Fault.Failed
        → Rose (D.view disk.old).faults (D.view disk.new).faults }
    ensures bad { (named : File) (at : ℕ) → IsErrOf result (Fault.Bad named at)
        → IsTrue (D.view disk.old).tells → (forward : Forward) → IsReady forward (D.view disk.old)
        → FitAll forward (groups_above last (group ∷ [])) → ⊥ }
    ensures laid { OnOk result (IsTrue (D.view disk.old).tells
        → (forward : Forward) → IsReady forward (D.view disk.old)
        → FitAll forward (groups_above last (group ∷ []))
        → LaidOver forward (writes_of (groups_above last (group ∷ []))) (D.view disk.old).content (D.view disk.new).content) }

    // Whatever it answers.
    ensures runs { RunsBehind IsArea (D.view disk.old) (D.view disk.new) }
    ensures ready { IsTrue (D.view disk.old).tells → (forward : Forward)
        → FitAll forward (groups_above last (group ∷ []))
        → KeepsReady forward (D.view disk.old) (D.view disk.new) }
{
    if last < group.number {
        lay_lines(disk, file, slot, group.tsn, group.lines.as_slice())
    } else {
        Ok(())
    }
}
