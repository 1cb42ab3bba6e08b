// The steps of a backup before its lines, and behind them.
ghost use Rattle.std.specs.Prelude.{◌≡◌, ◌≢◌, ◌≤◌, ◌<◌, ◌+◌, ◌^◌, [], ℕ, List, IfOk, OnOk, OnErr, IsErrOf, IsTrue, None, is_ok};
ghost use Rattle.rdb_types.specs.declared.file.FileId.{FileId as File};
ghost use Rattle.rdb_types.specs.declared.keys.Limits.{Limits as Grown};
ghost use Rattle.rdb_outside.specs.Causes.{Rose};
ghost use Rattle.rdb_outside.specs.Disk.{LeavesOnly, Pending, Image as Content};
ghost use Rattle.backup_file.specs.declared.line.BackupLine.{BackupLine};
ghost use Rattle.backup_making.specs.declared.making.Stage.TheVariants.{Begun, Open, Ended};
ghost use Rattle.backup_making.specs.Making.{file_of, advanced, Former, Steps, IsAt, IsEnded, head_of};
ghost use Rattle.stable_lines.specs.Progress.{Progress};
ghost use Rattle.stable_lines.specs.Facts.{Facts};
ghost use Rattle.database_opening.specs.Others.{KeepsFile};
ghost use Rattle.copied_lines.specs.Copying.{SameAreas};
ghost use Rattle.whole_backup.specs.BackedUp.{MightHold};
ghost use Rattle.whole_backup.specs.Making.{IsBeginning, IsEnding};

use backup_making::{Backup, BackupTurn};
use line_store::Fault;
use rdb_outside::Disk;
use rdb_types::Limits;

// The next step, without a line.
fn advance<D: Disk>(disk: &mut D, backup: &mut Backup) -> Result<(), Fault>
    requires goes_on { backup.old.stage ≢ Ended }
    requires last_group { backup.old.last_group ≤ 2 ^ 62 }
    requires room { backup.old.lines + 1 < 2 ^ 32 }
    ensures moved { OnOk result (backup.new ≡ advanced backup.old None) }
    ensures steps { Steps (file_of backup.old.number) (D.view disk.old) (D.view disk.new) (is_ok result) }
    ensures done { OnOk result (IsTrue (D.view disk.old).tells → (former : Former) (lines : List BackupLine)
        → IsAt former (D.view disk.old) backup.old lines
        → IsAt former (D.view disk.new) backup.new lines) }
    ensures not_done { OnErr result (IsTrue (D.view disk.old).tells → (former : Former) (lines : List BackupLine)
        → IsAt former (D.view disk.old) backup.old lines
        → IsAt former (D.view disk.new) backup.old lines) }
    ensures no_slot { (file : File) (slot : ℕ) → IsErrOf result (Fault.Bad file slot) → ⊥ }
{
    match backup.step(disk, None) {
        BackupTurn::Failed => Err(Fault::Failed),
        _ => Ok(()),
    }
}

/// Begins a backup: behind it none stands, and lines may be added.
pub(crate) fn begin_backup<D: Disk>(
    disk: &mut D,
    number: u32,
    limits: Limits,
    last_group: u64,
) -> Result<Backup, Fault>
    requires { last_group ≤ 2 ^ 62 }
    ensures opened { IfOk result (λ backup. backup
        ≡ record { number = number; limits = limits; last_group = last_group; lines = 0; stage = Open }) }
    ensures told { (D.view disk.new).tells ≡ (D.view disk.old).tells }
    ensures no_fewer { (D.view disk.old).faults ≤ (D.view disk.new).faults }
    ensures failed { IsErrOf result Fault.Failed
        → Rose (D.view disk.old).faults (D.view disk.new).faults }
    ensures no_slot { (file : File) (slot : ℕ) → IsErrOf result (Fault.Bad file slot) → ⊥ }
    ensures keeps { IsTrue (D.view disk.old).tells → (now : Progress)
        → Facts (Pending (D.view disk.old)) now → Facts (Pending (D.view disk.new)) now }
    ensures same { IsTrue (D.view disk.old).tells → (image : Content)
        → SameAreas image (D.view disk.old).content → SameAreas image (D.view disk.new).content }
    ensures begun { IfOk result (λ backup. IsTrue (D.view disk.old).tells → (former : Former)
        → MightHold former (D.view disk.old) number → IsAt former (D.view disk.new) backup []) }

    // Whatever it answers, a crash at any moment of it leaves the backup that stood before, or none.
    ensures beginning { IsTrue (D.view disk.old).tells → (now : Progress) (former : Former)
        → Facts (Pending (D.view disk.old)) now → MightHold former (D.view disk.old) number
        → LeavesOnly (D.view disk.old) (D.view disk.new) (IsBeginning now former number) }
    ensures others { IsTrue (D.view disk.old).tells → (file : File) → file ≢ file_of number
        → KeepsFile file (D.view disk.old) (D.view disk.new) }
{
    let mut backup = Backup::start(number, limits, last_group);
    advance(disk, &mut backup)?;
    advance(disk, &mut backup)?;
    Ok(backup)
}

/// Ends an open backup: behind it its header stands.
pub(crate) fn end_backup<D: Disk>(disk: &mut D, backup: &mut Backup) -> Result<(), Fault>
    requires is_open { backup.old.stage ≡ Open }
    requires last_group { backup.old.last_group ≤ 2 ^ 62 }
    requires room { backup.old.lines + 1 < 2 ^ 32 }
    ensures told { (D.view disk.new).tells ≡ (D.view disk.old).tells }
    ensures no_fewer { (D.view disk.old).faults ≤ (D.view disk.new).faults }
    ensures failed { IsErrOf result Fault.Failed
        → Rose (D.view disk.old).faults (D.view disk.new).faults }
    ensures no_slot { (file : File) (slot : ℕ) → IsErrOf result (Fault.Bad file slot) → ⊥ }
    ensures keeps { IsTrue (D.view disk.old).tells → (now : Progress)
        → Facts (Pending (D.view disk.old)) now → Facts (Pending (D.view disk.new)) now }
    ensures ended { OnOk result (IsTrue (D.view disk.old).tells
        → (former : Former) (copies : List BackupLine) → IsAt former (D.view disk.old) backup.old copies
        → IsEnded (D.view disk.new) (file_of backup.old.number) (head_of backup.old copies) copies) }

    // Whatever it answers, a crash at any moment of it leaves none, or a backup of these lines.
    ensures ending { IsTrue (D.view disk.old).tells → (now : Progress) (former : Former) (copies : List BackupLine)
        → Facts (Pending (D.view disk.old)) now → IsAt former (D.view disk.old) backup.old copies
        → LeavesOnly (D.view disk.old) (D.view disk.new)
        (IsEnding now (head_of backup.old copies) copies backup.old.number) }
    ensures others { IsTrue (D.view disk.old).tells
        → (file : File) → file ≢ file_of backup.old.number
        → KeepsFile file (D.view disk.old) (D.view disk.new) }
{
    advance(disk, backup)?;
    advance(disk, backup)?;
    advance(disk, backup)
}
