// A journal passed group by group.
ghost use Rattle.std.specs.Prelude.{◌≡◌, ◌≢◌, ◌≤◌, ◌+◌, Some, None, IfOk, IsErr, IsTrue};
ghost use Rattle.rdb_types.specs.File.{slot_bytes};
ghost use Rattle.journal_reading.specs.journal_scan.declared.group.Group.{Group as Written};
ghost use Rattle.journal_reading.specs.journal_scan.Whole.{count_of, slots_of, IsWhole};
ghost use Rattle.rdb_outside.specs.Causes.{Rose};
ghost use Rattle.rdb_outside.specs.Disk.{OnlyReads};
ghost use Rattle.journal_reading.specs.Journal.{EndsBy, standing};
ghost use Rattle.journal_passing.specs.Groups.{IsPassed};

use crate::passing::{Passed, PassedGroup, pass_slot};
use rdb_outside::{Disk, Failed};
use rdb_types::FileId;

/// Whose the whole group of this number is, whose slots begin at this slot, and how many lines it has. From `end` on the file has no more, as `Disk::length` tells. Asked behind the header for the first group, and behind each for the next, it goes over a journal of any length without memory. The time grows as the slots that are read.
pub fn pass_group<D: Disk>(
    disk: &mut D,
    file: FileId,
    end: u32,
    slot: u32,
    number: u64,
) -> Result<Option<PassedGroup>, Failed>
    requires { slot_bytes file ≡ 512 }

    // Such a group stands there, whole, and ends before the end.
    ensures whole { IfOk result (λ found. (group : _) → found ≡ Some group
        → IsPassed (D.view disk.old).content file (IsTrue (D.view disk.old).tells) slot number group) }
    ensures within { IfOk result (λ found. (group : _) → found ≡ Some group
        → slot + (group.lines + 1) ≤ end) }

    // None is answered only where no such group stands there.
    ensures none { IfOk result (λ found. IsTrue (D.view disk.old).tells
        → EndsBy (D.view disk.old).content file end → found ≡ None
        → (group : Written) → IsWhole number group
        → standing (D.view disk.old).content file slot (count_of group) ≢ slots_of group) }
    ensures failed { IsErr result → Rose (D.view disk.old).faults (D.view disk.new).faults }

    // Whatever it answers.
    ensures reads { OnlyReads (D.view disk.old) (D.view disk.new) }
{
    let mut passing = None;
    let mut bytes = [0; 512];
    for at in slot..end {
        disk.read(file, at, &mut bytes)?;
        match pass_slot(passing, number, &bytes) {
            Passed::More(next) => passing = Some(next),
            Passed::Whole(group) => return Ok(Some(group)),
            Passed::Broken => return Ok(None),
        }
    }
    Ok(None)
}
