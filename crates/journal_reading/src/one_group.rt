// A journal read group by group.
ghost use Rattle.std.specs.Prelude.{◌≡◌, ◌≢◌, ◌≤◌, ◌+◌, ℕ, Some, None, IfOk, IsErrOf, IsTrue};
ghost use Rattle.rdb_outside.specs.rdb_types.File.{slot_bytes};
ghost use Rattle.journal_scan.specs.declared.group.Group.{Group as Written};
ghost use Rattle.journal_scan.specs.Whole.{count_of, slots_of, IsWhole};
ghost use Rattle.rdb_outside.specs.Causes.{Rose};
ghost use Rattle.rdb_outside.specs.Disk.{OnlyReads};
ghost use Rattle.journal_reading.specs.Journal.{EndsBy, standing};

use crate::AijFault;
use journal_scan::{Group, Scan, Turn};
use rdb_outside::{Disk, FileId};
use std::alloc::Global;

/// The whole group of this number whose slots begin at this slot. From `end` on the file has no more, as `Disk::length` tells. Asked behind the header for the first group, and behind each for the next, it reads a journal with no more than one group in memory. The time grows as the slots that are read.
pub fn group_at<D: Disk>(
    alloc: Global,
    disk: &mut D,
    file: FileId,
    end: u32,
    slot: u32,
    number: u64,
) -> Result<Option<Group>, AijFault>
    requires { slot_bytes file ≡ 512 }

    // It is whole, and ends before the end.
    ensures whole { IfOk result (λ found. (group : Written) → found ≡ Some group → IsWhole number group) }
    ensures within { IfOk result (λ found. (group : Written) → found ≡ Some group
        → slot + count_of group ≤ end) }

    // Its slots stand there.
    ensures stands { IfOk result (λ found. IsTrue (D.view disk.old).tells
        → (group : Written) → found ≡ Some group
        → standing (D.view disk.old).content file slot (count_of group) ≡ slots_of group) }

    // None is answered only where no such group stands there.
    ensures none { IfOk result (λ found. IsTrue (D.view disk.old).tells
        → EndsBy (D.view disk.old).content file end → found ≡ None
        → (group : Written) → IsWhole number group
        → standing (D.view disk.old).content file slot (count_of group) ≢ slots_of group) }

    // It doesn't give up by itself.
    ensures no_header { IsErrOf result AijFault.BadHeader → ⊥ }
    ensures failed { IsErrOf result AijFault.Failed
        → Rose (D.view disk.old).faults (D.view disk.new).faults }

    // Whatever it answers.
    ensures reads { OnlyReads (D.view disk.old) (D.view disk.new) }
{
    let mut scan = Scan::at(alloc, slot, number);
    let mut bytes = [0; 512];
    for at in slot..end {
        disk.read(file, at, &mut bytes)?;
        match scan.take(alloc, &bytes)? {
            Turn::More => {}
            Turn::Ended => return Ok(None),
        }
        if !scan.groups.is_empty() {
            return Ok(scan.groups.pop());
        }
    }
    Ok(None)
}
