// Whether there is a database that may be read.
ghost use Rattle.std.specs.Prelude.{◌≡◌, ℕ, IsOk, IsErrOf, IsTrue};
ghost use Rattle.rdb_types.specs.declared.file.FileId.{FileId as File};
ghost use Rattle.rdb_outside.specs.Causes.{Rose};
ghost use Rattle.rdb_outside.specs.Disk.{OnlyReads};
ghost use Rattle.rmu_commands.specs.Usable.{HasRootInUse, status_at};

use line_moves::root_file;
use line_opening::OpeningFault;
use rdb_outside::Disk;
use rmu_dump::root_of;

/// The status of a command that gave up.
pub(crate) fn status_of(fault: OpeningFault) -> u8
    ensures { result ≡ status_at fault }
{
    match fault {
        OpeningFault::Failed => 3,
        OpeningFault::Bad(_, _) => 4,
        OpeningFault::NoMemory => 5,
    }
}

/// Reads the root, which has to be whole, or restored and not yet used.
pub(crate) fn find_root<D: Disk>(disk: &mut D) -> Result<(), OpeningFault>
    ensures found { IsOk result → IsTrue (D.view disk.old).tells
        → HasRootInUse (D.view disk.old).content }
    ensures refused { (file : File) (slot : ℕ) → IsErrOf result (OpeningFault.Bad file slot)
        → IsTrue (D.view disk.old).tells → HasRootInUse (D.view disk.old).content → ⊥ }
    ensures failed { IsErrOf result OpeningFault.Failed
        → Rose (D.view disk.old).faults (D.view disk.new).faults }
    ensures reads { OnlyReads (D.view disk.old) (D.view disk.new) }
{
    let root = root_of(disk)?;
    if root.state == 1 || root.state == 3 {
        Ok(())
    } else {
        Err(OpeningFault::Bad(root_file(), 0))
    }
}
