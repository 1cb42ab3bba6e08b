// The groups of a journal on their pages.
ghost use Rattle.std.specs.Prelude.{◌≡◌, ◌≤◌, ◌-◌, ◌^◌, ℕ, max, IfOk, OnOk, IsErrOf, IsTrue};
ghost use Rattle.rdb_types.specs.File.{slot_bytes};
ghost use Rattle.rdb_types.specs.declared.file.FileId.{FileId as File};
ghost use Rattle.rdb_outside.specs.Causes.{Rose};
ghost use Rattle.journal_reading.specs.Journal.{EndsBy};
ghost use Rattle.stable_lines.specs.Journal.{Journal, next_number};
ghost use Rattle.stable_lines.specs.Rolling.{groups_above};
ghost use Rattle.rolled_lines.specs.HalfLaid.{writes_of};
ghost use Rattle.guarded_root.specs.Guarded.{RunsBehind};
ghost use Rattle.guarded_lines.specs.Laying.{IsArea};
ghost use Rattle.laid_groups.specs.Forward.{Forward, FitAll, IsReady, KeepsReady};
ghost use Rattle.laid_groups.specs.Laid.{LaidOver};
ghost use Rattle.laid_groups.specs.Passing.{IsJournalIn};

use crate::groups::lay_above;
use crate::passing::{first_number, greater};
use journal_reading::group_at;
use line_opening::OpeningFault;
use rdb_outside::Disk;
use rdb_types::FileId;
use std::alloc::Global;

// Lays the groups behind the header, up to the slot from which on the file is zeros.
fn lay_groups<D: Disk>(
    alloc: Global,
    disk: &mut D,
    file: FileId,
    end: u32,
    first: u64,
    last: u64,
) -> Result<u64, OpeningFault>
    requires size { slot_bytes file ≡ 512 }
    requires few { first ≤ 2 ^ 62 }
    ensures failed { IsErrOf result OpeningFault.Failed
        → Rose (D.view disk.old).faults (D.view disk.new).faults }
    ensures bad { (named : File) (at : ℕ) → IsErrOf result (OpeningFault.Bad named at)
        → IsTrue (D.view disk.old).tells → (forward : Forward) (journal : Journal)
        → IsReady forward (D.view disk.old)
        → IsJournalIn (D.view disk.old).content file journal → first ≡ journal.first
        → FitAll forward (groups_above last journal.groups) → ⊥ }
    ensures reached { IfOk result (λ reached. IsTrue (D.view disk.old).tells → (journal : Journal)
        → IsJournalIn (D.view disk.old).content file journal → first ≡ journal.first
        → EndsBy (D.view disk.old).content file end
        → reached ≡ max last (next_number journal - 1)) }
    ensures laid { OnOk result (IsTrue (D.view disk.old).tells → (forward : Forward) (journal : Journal)
        → IsReady forward (D.view disk.old)
        → IsJournalIn (D.view disk.old).content file journal → first ≡ journal.first
        → EndsBy (D.view disk.old).content file end
        → FitAll forward (groups_above last journal.groups)
        → LaidOver forward (writes_of (groups_above last journal.groups)) (D.view disk.old).content (D.view disk.new).content) }

    // Whatever it answers.
    ensures runs { RunsBehind IsArea (D.view disk.old) (D.view disk.new) }
    ensures ready { IsTrue (D.view disk.old).tells → (forward : Forward) (journal : Journal)
        → IsJournalIn (D.view disk.old).content file journal → first ≡ journal.first
        → FitAll forward (groups_above last journal.groups)
        → KeepsReady forward (D.view disk.old) (D.view disk.new) }
{
    let mut slot = 1;
    let mut number = first;
    loop {
        let Some(group) = group_at(alloc, disk, file, end, slot, number)? else {
            return Ok(greater(last, number.saturating_sub(1)));
        };
        let lines = group.lines.len() as u32;
        lay_above(disk, file, slot, last, group)?;
        slot += lines + 1;
        number += 1;
    }
}

/// Lays the groups of the journal in this file whose numbers are above the last one that is behind, and answers the last one that is behind then. There is one group in memory at a time; for each line its page and its space page are read, and written where they change.
pub fn lay_journal<D: Disk>(
    alloc: Global,
    disk: &mut D,
    file: FileId,
    last: u64,
) -> Result<u64, OpeningFault>
    requires { slot_bytes file ≡ 512 }
    ensures failed { IsErrOf result OpeningFault.Failed
        → Rose (D.view disk.old).faults (D.view disk.new).faults }

    // A journal whose groups fit is never refused.
    ensures bad { (named : File) (at : ℕ) → IsErrOf result (OpeningFault.Bad named at)
        → IsTrue (D.view disk.old).tells → (forward : Forward) (journal : Journal)
        → IsReady forward (D.view disk.old)
        → IsJournalIn (D.view disk.old).content file journal
        → FitAll forward (groups_above last journal.groups) → ⊥ }
    ensures reached { IfOk result (λ reached. IsTrue (D.view disk.old).tells → (journal : Journal)
        → IsJournalIn (D.view disk.old).content file journal
        → reached ≡ max last (next_number journal - 1)) }

    // Each line is as these groups left it.
    ensures laid { OnOk result (IsTrue (D.view disk.old).tells → (forward : Forward) (journal : Journal)
        → IsReady forward (D.view disk.old)
        → IsJournalIn (D.view disk.old).content file journal
        → FitAll forward (groups_above last journal.groups)
        → LaidOver forward (writes_of (groups_above last journal.groups)) (D.view disk.old).content (D.view disk.new).content) }

    // Whatever it answers, none but area files are written, and at every moment of it a crash leaves each line as some of the writes left it.
    ensures runs { RunsBehind IsArea (D.view disk.old) (D.view disk.new) }
    ensures ready { IsTrue (D.view disk.old).tells → (forward : Forward) (journal : Journal)
        → IsJournalIn (D.view disk.old).content file journal
        → FitAll forward (groups_above last journal.groups)
        → KeepsReady forward (D.view disk.old) (D.view disk.new) }
{
    let first = first_number(disk, file)?;
    let end = disk.length(file)?;
    lay_groups(alloc, disk, file, end, first, last)
}
