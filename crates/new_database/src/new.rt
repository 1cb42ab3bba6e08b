// A new database with its limits.
ghost use Rattle.std.specs.Prelude.{◌≡◌, IsTrue, OnOk, IsErr, IsErrOf};
ghost use Rattle.root_file.specs.Root.{AreLimits};
ghost use Rattle.rdb_outside.specs.Disk.{Image, LeftNow, LeavesOnly, Keeps};
ghost use Rattle.rdb_outside.specs.Causes.{Rose};
ghost use Rattle.new_database.specs.Maker.{IsUnmade, HasRoot};
ghost use Rattle.new_database.specs.New.{new_root as root_of, IsNewDatabase, IsNewDatabaseOrNone};

use crate::NewFault;
use crate::maker::make;
use aij_journal::put_header;
use rdb_outside::{Disk, Limits};
use root_file::{Root, put_root};

fn new_root(limits: Limits) -> Root
    ensures { result ≡ root_of limits }
{
    Root {
        format: 1,
        state: 1,
        limits,
        ceiling: 1,
        applied: 0,
    }
}

/// Makes an empty database with these limits, where the root slot is zeros: the first slots of the files, the header of the journal and a barrier, then the root and a barrier.
pub fn make_new<D: Disk>(disk: &mut D, limits: Limits) -> Result<(), NewFault>
    requires { AreLimits limits }

    // Every crash from now on leaves the new database.
    ensures made { OnOk result (IsTrue (D.view disk.old).tells → IsUnmade (D.view disk.old)
        → (image : Image) → LeftNow (D.view disk.new) image → IsNewDatabase limits image) }

    // A crash at any moment of the call leaves no database, where it can be called again, or the new one.
    ensures any_moment { IsTrue (D.view disk.old).tells → IsUnmade (D.view disk.old)
        → LeavesOnly (D.view disk.old) (D.view disk.new) (IsNewDatabaseOrNone limits) }

    // It doesn't give up by itself.
    ensures failed { IsErrOf result NewFault.Failed
        → Rose (D.view disk.old).faults (D.view disk.new).faults }
    ensures not_empty { IsErrOf result NewFault.NotEmpty → IsTrue (D.view disk.old).tells
        → HasRoot (D.view disk.old).content }

    // What stands stays.
    ensures standing { IsTrue (D.view disk.old).tells → HasRoot (D.view disk.old).content
        → IsErr result × Keeps (D.view disk.old) (D.view disk.new) }
{
    let mut root = [0; 1024];
    put_root(&mut root, &new_root(limits));
    let mut header = [0; 512];
    put_header(&mut header, 1);
    match make(disk, &header, &root) {
        Ok(()) => Ok(()),
        Err(fault) => Err(fault),
    }
}
