// A database made from a backup.
ghost use Rattle.std.specs.Prelude.{◌≡◌, ◌≤◌, ◌^◌, ℕ, List, IfOk, OnOk, IsErr, IsErrOf, IsTrue};
ghost use Rattle.rdb_types.specs.declared.file.FileId.{FileId as File};
ghost use Rattle.rdb_outside.specs.Causes.{Rose};
ghost use Rattle.rdb_outside.specs.Disk.{LeavesOnly, LeftNow, OnlyReads, Image as Content};
ghost use Rattle.root_file.specs.declared.Root.{Root as Written};
ghost use Rattle.root_file.specs.Root.{IsRoot, IsAllowed, AreLimits};
ghost use Rattle.new_database.specs.Maker.{root_file as root_named};
ghost use Rattle.backup_file.specs.declared.header.BackupHead.{BackupHead as Head};
ghost use Rattle.backup_file.specs.declared.line.BackupLine.{BackupLine as Copied};
ghost use Rattle.stable_lines.specs.Journal.{Journal};
ghost use Rattle.database_opening.specs.Others.{KeepsFile};
ghost use Rattle.rmu_restore.specs.Laying.{IsOther};
ghost use Rattle.rmu_restore.specs.Restored.{IsSource, IsRestored, WithinRestore, IsPlanned};

use crate::blanking::blank_all;
use crate::journal::{greater, greatest_of_groups};
use crate::laying::lay_all;
use backup_file::BackupHead;
use backup_reading::read_backup;
use guarded_root::{guard, unguard};
use line_moves::root_file;
use line_opening::OpeningFault;
use line_store::Fault;
use rdb_outside::{Disk, Failed};
use root_file::{Root, read_root};
use std::alloc::Global;

/// What a restore goes by: the root that it ends with, and how many lines the backup has.
#[derive(Clone, Copy)]
pub(crate) struct Plan {
    pub root: Root,
    pub lines: u32,
}

// The ceiling of the root that stands, and 0 where none does.
fn old_ceiling<D: Disk>(disk: &mut D) -> Result<u64, Failed>
    ensures reads { OnlyReads (D.view disk.old) (D.view disk.new) }
    ensures failed { IsErr result → Rose (D.view disk.old).faults (D.view disk.new).faults }
    ensures few { IfOk result (λ ceiling. ceiling ≤ 2 ^ 62) }
    ensures ceiling { IfOk result (λ ceiling. IsTrue (D.view disk.old).tells
        → (root : Written) → IsRoot ((D.view disk.old).content root_named 0) root → root.ceiling ≤ ceiling) }
{
    let mut slot = [0; 1024];
    disk.read(root_file(), 0, &mut slot)?;
    match read_root(&slot) {
        Ok(root) => Ok(root.ceiling),
        Err(_) => Ok(0),
    }
}

// The root of the restored database.
fn root_of(head: BackupHead, ceiling: u64) -> Root
    requires limits { AreLimits head.limits }
    requires last_group { head.last_group ≤ 2 ^ 62 }
    requires first { 1 ≤ ceiling }
    requires few { ceiling ≤ 2 ^ 62 }
    ensures allowed { IsAllowed result }
    ensures state { result.state ≡ 3 }
    ensures limits { result.limits ≡ head.limits }
    ensures applied { result.applied ≡ head.last_group }
    ensures ceiling { result.ceiling ≡ ceiling }
{
    Root {
        format: 1,
        state: 3,
        limits: head.limits,
        ceiling,
        applied: head.last_group,
    }
}

// Reads all that a restore goes by.
fn plan_restore<D: Disk>(alloc: Global, disk: &mut D, number: u32) -> Result<Plan, OpeningFault>
    ensures reads { OnlyReads (D.view disk.old) (D.view disk.new) }
    ensures failed { IsErrOf result OpeningFault.Failed
        → Rose (D.view disk.old).faults (D.view disk.new).faults }
    ensures allowed { IfOk result (λ plan. IsAllowed plan.root) }
    ensures state { IfOk result (λ plan. plan.root.state ≡ 3) }
    ensures planned { IfOk result (λ plan. IsTrue (D.view disk.old).tells
        → (classes : ℕ → ℕ) (head : Head) (lines : List Copied) (journal : Journal)
        → IsSource (D.view disk.old).content number classes head lines journal
        → IsPlanned (D.view disk.old).content head lines journal plan) }
    ensures bad { (file : File) (slot : ℕ) → IsErrOf result (OpeningFault.Bad file slot)
        → IsTrue (D.view disk.old).tells
        → (classes : ℕ → ℕ) (head : Head) (lines : List Copied) (journal : Journal)
        → IsSource (D.view disk.old).content number classes head lines journal → ⊥ }
{
    let backup = read_backup(alloc, disk, number)?;
    let old = old_ceiling(disk)?;
    let greatest = greatest_of_groups(disk)?;
    let ceiling = greater(old, greater(backup.greatest, greatest) + 1);
    Ok(Plan {
        root: root_of(backup.head, ceiling),
        lines: backup.head.lines,
    })
}

// Makes the database behind the readings.
fn carry_out<D: Disk>(disk: &mut D, number: u32, plan: Plan) -> Result<(), Fault>
    requires allowed { IsAllowed plan.root }
    ensures told { (D.view disk.new).tells ≡ (D.view disk.old).tells }
    ensures no_fewer { (D.view disk.old).faults ≤ (D.view disk.new).faults }
    ensures failed { IsErrOf result Fault.Failed
        → Rose (D.view disk.old).faults (D.view disk.new).faults }
    ensures bad { (file : File) (slot : ℕ) → IsErrOf result (Fault.Bad file slot)
        → IsTrue (D.view disk.old).tells
        → (classes : ℕ → ℕ) (head : Head) (lines : List Copied) (journal : Journal)
        → IsSource (D.view disk.old).content number classes head lines journal
        → IsPlanned (D.view disk.old).content head lines journal plan → ⊥ }
    ensures restored { OnOk result (IsTrue (D.view disk.old).tells
        → (classes : ℕ → ℕ) (head : Head) (lines : List Copied) (journal : Journal)
        → IsSource (D.view disk.old).content number classes head lines journal
        → IsPlanned (D.view disk.old).content head lines journal plan
        → (image : Content) → LeftNow (D.view disk.new) image
        → IsRestored (D.view disk.old).content classes head lines journal image) }
    ensures within { IsTrue (D.view disk.old).tells
        → (classes : ℕ → ℕ) (head : Head) (lines : List Copied) (journal : Journal)
        → IsSource (D.view disk.old).content number classes head lines journal
        → IsPlanned (D.view disk.old).content head lines journal plan
        → LeavesOnly (D.view disk.old) (D.view disk.new)
        (WithinRestore (D.view disk.old) classes head lines journal) }
    ensures others { IsTrue (D.view disk.old).tells → (file : File) → IsOther file
        → KeepsFile file (D.view disk.old) (D.view disk.new) }
{
    let unfinished = Root {
        state: 2,
        ..plan.root
    };
    guard(disk, &unfinished)?;
    blank_all(disk)?;
    lay_all(disk, number, plan.lines)?;
    unguard(disk, &plan.root)?;
    Ok(())
}

/// Makes the database anew as the backup of this number has it: restored, and not yet used. The after-image journal stays as it is. The backup and the journal are read before anything is written; then each slot of the areas and of the before-image journals is written with zeros, and each line on its page; files of the database that are gone are made anew. It takes some 20 bytes for each page that the lines stand on.
pub fn restore<D: Disk>(alloc: Global, disk: &mut D, number: u32) -> Result<(), OpeningFault>
    // It doesn't give up by itself.
    ensures told { (D.view disk.new).tells ≡ (D.view disk.old).tells }
    ensures no_fewer { (D.view disk.old).faults ≤ (D.view disk.new).faults }
    ensures failed { IsErrOf result OpeningFault.Failed
        → Rose (D.view disk.old).faults (D.view disk.new).faults }

    // A whole backup is never refused, over a journal that a database in use left.
    ensures bad { (file : File) (slot : ℕ) → IsErrOf result (OpeningFault.Bad file slot)
        → IsTrue (D.view disk.old).tells
        → (classes : ℕ → ℕ) (head : Head) (lines : List Copied) (journal : Journal)
        → IsSource (D.view disk.old).content number classes head lines journal → ⊥ }

    // Each image that a crash may leave then stands for the lines of the backup, whatever the database was.
    ensures restored { OnOk result (IsTrue (D.view disk.old).tells
        → (classes : ℕ → ℕ) (head : Head) (lines : List Copied) (journal : Journal)
        → IsSource (D.view disk.old).content number classes head lines journal
        → (image : Content) → LeftNow (D.view disk.new) image
        → IsRestored (D.view disk.old).content classes head lines journal image) }

    // Whatever it answers, a crash at any moment of it leaves what one before might have left, an unfinished restore, or the restored database.
    ensures within { IsTrue (D.view disk.old).tells
        → (classes : ℕ → ℕ) (head : Head) (lines : List Copied) (journal : Journal)
        → IsSource (D.view disk.old).content number classes head lines journal
        → LeavesOnly (D.view disk.old) (D.view disk.new)
        (WithinRestore (D.view disk.old) classes head lines journal) }

    // Whatever it answers, the after-image journal, its copies and the backups are as they were, at every moment: a restore that was stopped is done again from the same backup.
    ensures others { IsTrue (D.view disk.old).tells → (file : File) → IsOther file
        → KeepsFile file (D.view disk.old) (D.view disk.new) }
{
    let plan = plan_restore(alloc, disk, number)?;
    carry_out(disk, number, plan)?;
    Ok(())
}
