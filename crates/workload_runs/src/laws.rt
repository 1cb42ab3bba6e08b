// What follows for any disk.
ghost use Rattle.std.specs.Prelude.{IsTrue};
ghost use Rattle.rdb_outside.specs.Disk.{LeftNow};

use rdb_outside::Disk;

/// What a disk tells is one of the images that a crash may leave now.
pub(crate) fn told_is_left<D: Disk>(disk: &D)
    ensures { IsTrue (D.view disk.now).tells → LeftNow (D.view disk.now) (D.view disk.now).content }
{}
