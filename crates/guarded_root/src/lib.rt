//! Work on the files of a database behind a root that says that it is unfinished.
#![tactic(auto)]

ghost use Rattle.std.specs.Prelude.{ℕ, List, ◌≡◌, ◌≢◌, ◌≤◌, ◌⊎◌, OnOk, IsErr, IsTrue, length};
ghost use Rattle.rdb_types.specs.File.{slot_bytes};
ghost use Rattle.rdb_types.specs.declared.file.FileId.{FileId as File};
ghost use Rattle.root_file.specs.Root.{IsRoot, IsAllowed};
ghost use Rattle.rdb_outside.specs.Disk.{Image, View, LeftNow, LeavesOnly, Puts, zeros, IsPending, Pending};
ghost use Rattle.rdb_outside.specs.Causes.{Rose};
ghost use Rattle.new_database.specs.Maker.{root_file};
ghost use Rattle.database_opening.specs.Others.{KeepsFile};
ghost use Rattle.guarded_root.specs.Guarded.{IsInState, IsGuarded, KeepsOthers, BeforeOrIn, IsEndOf, InOrEnd, PendingOrEnd, IsWrite, IsRootSlot, AddsOnly, IsFile, RunsBehind};

use rdb_outside::{Disk, Failed};
use rdb_types::{FileId, FileKind};
use root_file::{Root, put_root};

const ROOT: FileId = FileId {
    kind: FileKind::Root,
    number: 0,
};

/// Makes a root stable that says what is unfinished.
pub fn guard<D: Disk>(disk: &mut D, root: &Root) -> Result<(), Failed>
    requires { IsAllowed root.now }
    ensures told { (D.view disk.new).tells ≡ (D.view disk.old).tells }
    ensures no_fewer { (D.view disk.old).faults ≤ (D.view disk.new).faults }
    ensures failed { IsErr result → Rose (D.view disk.old).faults (D.view disk.new).faults }

    // From now on each image says so.
    ensures guarded { OnOk result (IsTrue (D.view disk.old).tells
        → IsGuarded root.now.state (D.view disk.new)) }
    ensures content { OnOk result (IsTrue (D.view disk.old).tells
        → KeepsOthers (D.view disk.old).content (D.view disk.new).content) }

    // A crash within leaves what it might have left before, or an image that says so.
    ensures any_moment { IsTrue (D.view disk.old).tells
        → LeavesOnly (D.view disk.old) (D.view disk.new) (BeforeOrIn (D.view disk.old) root.now.state) }

    // It adds this root alone to what a crash may leave, at every moment, and then it is sure.
    ensures adds { IsTrue (D.view disk.old).tells
        → AddsOnly (IsRootSlot root.now) (D.view disk.old) (D.view disk.new) }
    ensures held { OnOk result (IsTrue (D.view disk.old).tells → (bytes : List ℕ)
        → Pending (D.view disk.new) root_file 0 bytes → IsRoot bytes root.now) }

    // Each other file is as it was, at every moment.
    ensures others { IsTrue (D.view disk.old).tells → (file : File) → file ≢ root_file
        → KeepsFile file (D.view disk.old) (D.view disk.new) }
{
    let mut slot = [0; 1024];
    put_root(&mut slot, root);
    disk.write(ROOT, 0, &slot)?;
    disk.barrier()?;
    Ok(())
}

/// Writes a slot of another file behind such a root.
pub fn write_guarded<D: Disk>(
    disk: &mut D,
    file: FileId,
    slot: u32,
    bytes: &[u8],
) -> Result<(), Failed>
    requires size { length bytes.now ≡ slot_bytes file }
    requires other { file ≢ root_file }
    ensures failed { IsErr result → Rose (D.view disk.old).faults (D.view disk.new).faults }
    ensures written { OnOk result (IsTrue (D.view disk.old).tells
        → Puts file slot bytes.now (D.view disk.old).content (D.view disk.new).content) }

    // Whatever it answers.
    ensures runs { RunsBehind (IsFile file) (D.view disk.old) (D.view disk.new) }
    ensures adds { IsTrue (D.view disk.old).tells
        → AddsOnly (IsWrite file slot bytes.now) (D.view disk.old) (D.view disk.new) }
{
    disk.write(file, slot, bytes)
}

/// Ends the work: what was written is made stable, then the root.
pub fn unguard<D: Disk>(disk: &mut D, root: &Root) -> Result<(), Failed>
    requires { IsAllowed root.now }
    ensures told { (D.view disk.new).tells ≡ (D.view disk.old).tells }
    ensures no_fewer { (D.view disk.old).faults ≤ (D.view disk.new).faults }
    ensures failed { IsErr result → Rose (D.view disk.old).faults (D.view disk.new).faults }

    // From now on each image has the root, and what was written behind the old one.
    ensures ended { OnOk result (IsTrue (D.view disk.old).tells
        → (image : Image) → LeftNow (D.view disk.new) image
        → IsEndOf (D.view disk.old).content root.now image) }

    // A crash within leaves an unfinished image or a finished one.
    ensures any_moment { (state : _) → IsTrue (D.view disk.old).tells
        → IsGuarded state (D.view disk.old)
        → LeavesOnly (D.view disk.old) (D.view disk.new)
        (InOrEnd state (D.view disk.old).content root.now) }

    // It leaves what one before might have left, slot by slot, or a finished image.
    ensures slots { IsTrue (D.view disk.old).tells
        → LeavesOnly (D.view disk.old) (D.view disk.new) (PendingOrEnd (D.view disk.old) root.now) }

    // Each other file is as it was, at every moment.
    ensures others { IsTrue (D.view disk.old).tells → (file : File) → file ≢ root_file
        → KeepsFile file (D.view disk.old) (D.view disk.new) }
{
    let mut slot = [0; 1024];
    put_root(&mut slot, root);
    disk.barrier()?;
    disk.write(ROOT, 0, &slot)?;
    disk.barrier()?;
    Ok(())
}

/// Writes zeros to every slot of another file that may not be zeros.
pub fn sweep<D: Disk>(disk: &mut D, file: FileId, blank: &[u8]) -> Result<(), Failed>
    requires size { length blank.now ≡ slot_bytes file }
    requires blank { blank.now ≡ zeros file }
    requires other { file ≢ root_file }
    ensures failed { IsErr result → Rose (D.view disk.old).faults (D.view disk.new).faults }
    ensures zeros { OnOk result (IsTrue (D.view disk.old).tells → (slot : _)
        → (D.view disk.new).content file slot ≡ zeros file) }

    // Whatever it answers.
    ensures runs { RunsBehind (IsFile file) (D.view disk.old) (D.view disk.new) }
{
    let length = disk.length(file)?;
    for slot in 0..length {
        disk.write(file, slot, blank)?;
    }
    Ok(())
}
