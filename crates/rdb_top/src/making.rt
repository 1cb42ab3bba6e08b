//! A database made anew.
ghost use Rattle.std.specs.Prelude.{◌≡◌, ◌⊎◌, IsTrue};
ghost use Rattle.rdb_outside.specs.Causes.{Rose};
ghost use Rattle.rdb_outside.specs.Disk.{Image, LeftNow, LeavesOnly, Keeps};
ghost use Rattle.root_file.specs.Root.{AreLimits};
ghost use Rattle.new_database.specs.Maker.{IsUnmade, HasRoot};
ghost use Rattle.new_database.specs.New.{IsNewDatabase, IsNewDatabaseOrNone};

use new_database::{NewFault, make_new};
use rdb_outside::Disk;
use rdb_types::Limits;

/// Makes a database, and answers the status.
pub fn run_new<D: Disk>(disk: &mut D, limits: Limits) -> u8
    requires { AreLimits limits }
    ensures status { (result ≡ 0) ⊎ (result ≡ 3) ⊎ (result ≡ 9) }
    ensures device { result ≡ 3 → Rose (D.view disk.old).faults (D.view disk.new).faults }
    ensures made { result ≡ 0 → IsTrue (D.view disk.old).tells → IsUnmade (D.view disk.old) →
        (image : Image) → LeftNow (D.view disk.new) image → IsNewDatabase limits image }
    ensures any_moment { IsTrue (D.view disk.old).tells → IsUnmade (D.view disk.old) →
        LeavesOnly (D.view disk.old) (D.view disk.new) (IsNewDatabaseOrNone limits) }
    ensures taken { result ≡ 9 → IsTrue (D.view disk.old).tells → HasRoot (D.view disk.old).content }
    ensures standing { IsTrue (D.view disk.old).tells → HasRoot (D.view disk.old).content →
        ((result ≡ 0 → ⊥) × Keeps (D.view disk.old) (D.view disk.new)) }
{
    match make_new(disk, limits) {
        Ok(()) => 0,
        Err(NewFault::Failed) => 3,
        Err(NewFault::NotEmpty) => 9,
    }
}
