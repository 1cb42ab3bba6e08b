// A backup read from its header to its last line.
ghost use Rattle.std.specs.Prelude.{◌≡◌, ◌≤◌, ◌<◌, ◌^◌, ℕ, List, IfOk, IsErrOf, IsTrue};
ghost use Rattle.rdb_types.specs.declared.file.FileId.{FileId as File};
ghost use Rattle.rdb_outside.specs.Causes.{Rose};
ghost use Rattle.rdb_outside.specs.Disk.{OnlyReads};
ghost use Rattle.root_file.specs.Root.{AreLimits};
ghost use Rattle.backup_file.specs.declared.header.BackupHead.{BackupHead as Head};
ghost use Rattle.backup_file.specs.declared.line.BackupLine.{BackupLine as Line};
ghost use Rattle.backup_file.specs.Header.{IsHead};
ghost use Rattle.backup_file.specs.Line.{IsBackupLine, IsAllowed};
ghost use Rattle.backup_making.specs.Making.{file_of};
ghost use Rattle.backup_reading.specs.Reading.{IsBackupOf, IsRead, ReadsLines};

use crate::passing::{LineTurn, none_passed, pass_line};
use backup_file::{BackupHead, BackupLine, read_backup_head, read_backup_line as line_of_slot};
use line_opening::OpeningFault;
use line_store::Fault;
use rdb_outside::Disk;
use rdb_types::{FileId, FileKind};
use root_file::are_limits;
use std::alloc::Global;

/// What a backup says of itself, and the greatest transaction number of its lines.
#[derive(Clone, Copy)]
pub struct ReadBackup {
    pub head: BackupHead,
    pub greatest: u64,
}

/// The file of the backup of this number.
pub fn backup_file(number: u32) -> FileId
    ensures { result ≡ file_of number }
{
    FileId {
        kind: FileKind::Backup,
        number,
    }
}

/// The line in a slot of a backup, which has to say the slot's number.
pub fn read_backup_line<D: Disk>(disk: &mut D, number: u32, slot: u32) -> Result<BackupLine, Fault>
    ensures reads { OnlyReads (D.view disk.old) (D.view disk.new) }
    ensures failed { IsErrOf result Fault.Failed
        → Rose (D.view disk.old).faults (D.view disk.new).faults }
    ensures found { IfOk result (λ line. IsTrue (D.view disk.old).tells
        → IsBackupLine ((D.view disk.old).content (file_of number) slot) slot line) }
    ensures allowed { IfOk result IsAllowed }
    ensures bad { (file : File) (at : ℕ) → IsErrOf result (Fault.Bad file at)
        → IsTrue (D.view disk.old).tells → (line : Line)
        → IsBackupLine ((D.view disk.old).content (file_of number) slot) slot line → ⊥ }
{
    let file = backup_file(number);
    let mut bytes = [0; 512];
    disk.read(file, slot, &mut bytes)?;
    let Some(found) = line_of_slot(&bytes) else {
        return Err(Fault::Bad(file, slot));
    };
    if found.number != slot {
        return Err(Fault::Bad(file, slot));
    }
    Ok(found.line)
}

// The header, with a format and limits that a root may have.
fn read_head<D: Disk>(disk: &mut D, number: u32) -> Result<BackupHead, Fault>
    ensures reads { OnlyReads (D.view disk.old) (D.view disk.new) }
    ensures failed { IsErrOf result Fault.Failed
        → Rose (D.view disk.old).faults (D.view disk.new).faults }
    ensures found { IfOk result (λ head. IsTrue (D.view disk.old).tells
        → IsHead ((D.view disk.old).content (file_of number) 0) head) }
    ensures format { IfOk result (λ head. head.format ≡ 1) }
    ensures limits { IfOk result (λ head. AreLimits head.limits) }
    ensures last_group { IfOk result (λ head. head.last_group ≤ 2 ^ 62) }
    ensures bad { (file : File) (at : ℕ) → IsErrOf result (Fault.Bad file at)
        → IsTrue (D.view disk.old).tells → (head : Head) (lines : List Line)
        → IsBackupOf (D.view disk.old).content number head lines → ⊥ }
{
    let file = backup_file(number);
    let mut bytes = [0; 512];
    disk.read(file, 0, &mut bytes)?;
    let Some(head) = read_backup_head(&bytes) else {
        return Err(Fault::Bad(file, 0));
    };
    if head.format != 1 || !are_limits(&head.limits) {
        return Err(Fault::Bad(file, 0));
    }
    Ok(head)
}

// Passes all lines behind a header, and answers their greatest transaction number.
fn read_lines<D: Disk>(
    alloc: Global,
    disk: &mut D,
    number: u32,
    head: BackupHead,
) -> Result<u64, OpeningFault>
    ensures reads { OnlyReads (D.view disk.old) (D.view disk.new) }
    ensures failed { IsErrOf result OpeningFault.Failed
        → Rose (D.view disk.old).faults (D.view disk.new).faults }
    ensures found { IfOk result (λ greatest. IsTrue (D.view disk.old).tells
        → ReadsLines (D.view disk.old).content number head greatest) }
    ensures few { IfOk result (λ greatest. greatest < 2 ^ 62) }
    ensures bad { (file : File) (at : ℕ) → IsErrOf result (OpeningFault.Bad file at)
        → IsTrue (D.view disk.old).tells → (lines : List Line)
        → IsBackupOf (D.view disk.old).content number head lines → ⊥ }
{
    let mut passed = none_passed(alloc);
    for index in 0..head.lines {
        let line = read_backup_line(disk, number, index + 1)?;
        match pass_line(&mut passed, head.limits.pages, &line) {
            LineTurn::Goes => {}
            LineTurn::NoMemory => return Err(OpeningFault::NoMemory),
            LineTurn::Refused => return Err(OpeningFault::Bad(backup_file(number), index + 1)),
        }
    }
    Ok(passed.greatest)
}

/// Reads the backup of this number whole, each slot once. It takes some 20 bytes for each page that its lines stand on.
pub fn read_backup<D: Disk>(
    alloc: Global,
    disk: &mut D,
    number: u32,
) -> Result<ReadBackup, OpeningFault>
    // It is whole.
    ensures found { IfOk result (λ read. IsTrue (D.view disk.old).tells
        → IsRead (D.view disk.old).content number read) }

    // Whatever the disk tells, its header has values that a root may have.
    ensures format { IfOk result (λ read. read.head.format ≡ 1) }
    ensures limits { IfOk result (λ read. AreLimits read.head.limits) }
    ensures last_group { IfOk result (λ read. read.head.last_group ≤ 2 ^ 62) }
    ensures few { IfOk result (λ read. read.greatest < 2 ^ 62) }

    // A whole backup is never refused, and it doesn't give up by itself.
    ensures bad { (file : File) (at : ℕ) → IsErrOf result (OpeningFault.Bad file at)
        → IsTrue (D.view disk.old).tells → (head : Head) (lines : List Line)
        → IsBackupOf (D.view disk.old).content number head lines → ⊥ }
    ensures failed { IsErrOf result OpeningFault.Failed
        → Rose (D.view disk.old).faults (D.view disk.new).faults }

    // Whatever it answers.
    ensures reads { OnlyReads (D.view disk.old) (D.view disk.new) }
{
    let head = read_head(disk, number)?;
    let greatest = read_lines(alloc, disk, number, head)?;
    Ok(ReadBackup { head, greatest })
}
