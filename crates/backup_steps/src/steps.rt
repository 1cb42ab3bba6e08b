// A step of a backup of what a reader sees.
ghost use Rattle.std.specs.Prelude.{◌≡◌, ◌≢◌, ◌≤◌, ◌<◌, ◌+◌, ◌^◌, ℕ, Some, OnOk, OnErr, IsErrOf, IsTrue};
ghost use Rattle.rdb_types.specs.declared.file.FileId.{FileId as File};
ghost use Rattle.rdb_outside.specs.Causes.{Rose};
ghost use Rattle.line_view.specs.Knowledge.{Lines, IsInOrder};
ghost use Rattle.disk_seats.specs.Ledgers.{Ledger};
ghost use Rattle.backup_making.specs.declared.making.Stage.TheVariants.{Ended, Open};
ghost use Rattle.backup_making.specs.Making.{file_of, Former};
ghost use Rattle.next_lines.specs.partial_backup.Partial.{IsCopying};
ghost use Rattle.reader_lines.specs.Readers.{IsReader};
ghost use Rattle.next_lines.specs.Next.{Leads};
ghost use Rattle.backup_steps.specs.Beside.{IsBeside};
ghost use Rattle.backup_steps.specs.Copies.{MayBeCopied};
ghost use Rattle.backup_steps.specs.Steps.{due as due_in, steps_left, GoesOn, IsSame};

use crate::copies::{Copied, copy_for, version_seen};
use backup_making::Stage;
use line_store::Fault;
use next_lines::{Copying, NextLine};
use rdb_outside::Disk;
use rdb_types::{FileId, FileKind};
use version_reading::Reader;

// The file of a backup.
fn backup_file(number: u32) -> FileId
    ensures { result ≡ file_of number }
{
    FileId {
        kind: FileKind::Backup,
        number,
    }
}

// The line that a step looks at.
fn due(stage: Stage, next: Option<NextLine>) -> Option<NextLine>
    ensures { result ≡ due_in stage next }
{
    match stage {
        Stage::Open => next,
        _ => None,
    }
}

// Reads a line as the reader sees it, and copies it if it is present.
fn copy_line<D: Disk>(
    disk: &mut D,
    limit: u32,
    reader: &Reader,
    next: NextLine,
    copying: &mut Copying,
) -> Result<(), Fault>
    requires is_open { copying.old.backup.stage ≡ Open }
    requires last_group { copying.old.backup.last_group ≤ 2 ^ 62 }
    requires few { copying.old.backup.lines + 1 < 2 ^ 32 }
    ensures still_few { copying.new.backup.lines + 1 < 2 ^ 32 }
    ensures same { IsSame copying.old copying.new }
    ensures beside { IsBeside (file_of copying.old.backup.number) (D.view disk.old) (D.view disk.new) }
    ensures failed { IsErrOf result Fault.Failed
        → Rose (D.view disk.old).faults (D.view disk.new).faults }
    ensures stays { OnErr result (copying.new ≡ copying.old) }
    ensures less { OnOk result (GoesOn copying.old.from (Some next)
        → steps_left copying.new < steps_left copying.old) }
    ensures copied { OnOk result (IsTrue (D.view disk.old).tells
        → (former : Former) (classes : ℕ → ℕ) (ledger : Ledger) (lines : Lines)
        → IsReader (D.view disk.old) ledger limit reader.now lines
        → Leads classes lines copying.old.from (Some next)
        → IsCopying former classes lines (D.view disk.old) copying.old
        → IsCopying former classes lines (D.view disk.new) copying.new) }
    ensures not_copied { OnErr result (IsTrue (D.view disk.old).tells
        → (former : Former) (classes : ℕ → ℕ) (lines : Lines)
        → IsCopying former classes lines (D.view disk.old) copying.old
        → IsCopying former classes lines (D.view disk.new) copying.old) }
    ensures bad { (file : File) (slot : ℕ) → IsErrOf result (Fault.Bad file slot)
        → IsTrue (D.view disk.old).tells
        → (former : Former) (classes : ℕ → ℕ) (ledger : Ledger) (lines : Lines)
        → IsReader (D.view disk.old) ledger limit reader.now lines → IsInOrder lines
        → MayBeCopied classes lines reader.now
        → Leads classes lines copying.old.from (Some next)
        → IsCopying former classes lines (D.view disk.old) copying.old → ⊥ }
{
    let version = version_seen(disk, limit, reader, next.key)?;
    match copy_for(copying.backup.lines, next, version) {
        Copied::Absent => {
            copying.pass(disk, next.key);
            Ok(())
        }
        Copied::Present(line) => {
            copying.put(disk, line)?;
            Ok(())
        }
        Copied::Unfit => Err(Fault::Bad(backup_file(copying.backup.number), 0)),
    }
}

/// A step of a backup of what a reader sees: a line more is read and copied where it is present, or the backup goes on without one. One write or one barrier at most. Where it fails the backup stays as it was, and the step may be made again.
pub fn copy_next<D: Disk>(
    disk: &mut D,
    limit: u32,
    reader: &Reader,
    next: Option<NextLine>,
    copying: &mut Copying,
) -> Result<(), Fault>
    requires goes_on { copying.old.backup.stage ≢ Ended }
    requires last_group { copying.old.backup.last_group ≤ 2 ^ 62 }
    requires few { copying.old.backup.lines + 1 < 2 ^ 32 }
    ensures still_few { copying.new.backup.lines + 1 < 2 ^ 32 }
    ensures same { IsSame copying.old copying.new }

    // No other file is changed: none of the database, and no other backup.
    ensures beside { IsBeside (file_of copying.old.backup.number) (D.view disk.old) (D.view disk.new) }

    // It doesn't give up by itself.
    ensures failed { IsErrOf result Fault.Failed
        → Rose (D.view disk.old).faults (D.view disk.new).faults }
    ensures stays { OnErr result (copying.new ≡ copying.old) }

    // So many steps come to its end.
    ensures less { OnOk result (GoesOn copying.old.from next
        → steps_left copying.new < steps_left copying.old) }

    // The backup has the lines at the reader's start, so far.
    ensures copied { OnOk result (IsTrue (D.view disk.old).tells
        → (former : Former) (classes : ℕ → ℕ) (ledger : Ledger) (lines : Lines)
        → IsReader (D.view disk.old) ledger limit reader.now lines → IsInOrder lines
        → Leads classes lines copying.old.from next
        → IsCopying former classes lines (D.view disk.old) copying.old
        → IsCopying former classes lines (D.view disk.new) copying.new) }
    ensures not_copied { OnErr result (IsTrue (D.view disk.old).tells
        → (former : Former) (classes : ℕ → ℕ) (lines : Lines)
        → IsCopying former classes lines (D.view disk.old) copying.old
        → IsCopying former classes lines (D.view disk.new) copying.old) }

    // No slot is refused.
    ensures bad { (file : File) (slot : ℕ) → IsErrOf result (Fault.Bad file slot)
        → IsTrue (D.view disk.old).tells
        → (former : Former) (classes : ℕ → ℕ) (ledger : Ledger) (lines : Lines)
        → IsReader (D.view disk.old) ledger limit reader.now lines → IsInOrder lines
        → MayBeCopied classes lines reader.now
        → Leads classes lines copying.old.from next
        → IsCopying former classes lines (D.view disk.old) copying.old → ⊥ }
{
    match due(copying.backup.stage, next) {
        Some(next) => copy_line(disk, limit, reader, next, copying),
        None => {
            copying.go_on(disk)?;
            Ok(())
        }
    }
}
