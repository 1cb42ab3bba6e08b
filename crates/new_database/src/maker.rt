// The device calls that make a database, in their order.
ghost use Rattle.std.specs.Prelude.{◌≡◌, length, OnOk, IsErr, IsErrOf, IsTrue};
ghost use Rattle.rdb_outside.specs.Disk.{Image, LeftNow, LeavesOnly, Keeps};
ghost use Rattle.rdb_outside.specs.Causes.{Rose};
ghost use Rattle.new_database.specs.Maker.{IsUnmade, IsNew, IsNewOrNone, HasRoot, MakesNone};

use rdb_outside::{Disk, Failed, FileId, FileKind};
use root_file::is_zeros;

/// Why no database was made: a device call failed, or the root slot isn't zeros.
#[derive(Clone, Copy, Debug, PartialEq, Eq)]
pub enum NewFault {
    Failed,
    NotEmpty,
}

impl From<Failed> for NewFault {
    ghost use Rattle.new_database.specs.declared.maker.NewFault.TheVariants as faults;

    ghost from_gives = { λ _ e. e ≡ faults.Failed };

    fn from(_: Failed) -> Self {
        NewFault::Failed
    }
}

const ROOT: FileId = FileId {
    kind: FileKind::Root,
    number: 0,
};

const AIJ: FileId = FileId {
    kind: FileKind::Aij,
    number: 0,
};

/// Writes zeros to the first slot of some files of a kind.
fn make_numbered<D: Disk>(disk: &mut D, kind: FileKind, last: u32) -> Result<(), Failed>
    ensures cause { IsErr result → Rose (D.view disk.old).faults (D.view disk.new).faults }
    ensures none { MakesNone (D.view disk.old) (D.view disk.new) }
{
    let zeros = [0; 1024];
    for number in 1..=last {
        let file = FileId { kind, number };
        disk.write(file, 0, &zeros[..file.slot_bytes()])?;
    }
    Ok(())
}

/// Writes zeros to the first slot of each area, snapshot file and undo journal. This changes nothing, but each of the files is there behind it, so one that is lost later can be told from one that was never written.
fn make_files<D: Disk>(disk: &mut D) -> Result<(), Failed>
    ensures cause { IsErr result → Rose (D.view disk.old).faults (D.view disk.new).faults }
    ensures none { MakesNone (D.view disk.old) (D.view disk.new) }
{
    make_numbered(disk, FileKind::Area, 3)?;
    make_numbered(disk, FileKind::Snap, 3)?;
    make_numbered(disk, FileKind::Ruj, 16)
}

/// Makes a database with this root and this header of its after-image journal.
pub fn make<D: Disk>(disk: &mut D, header: &[u8], root: &[u8]) -> Result<(), NewFault>
    requires root { length root.now ≡ 1024 }
    requires header { length header.now ≡ 512 }

    // Every crash from now on leaves the new database.
    ensures made { OnOk result (IsTrue (D.view disk.old).tells → IsUnmade (D.view disk.old)
        → (image : Image) → LeftNow (D.view disk.new) image → IsNew header.now root.now image) }

    // A crash at any moment of the call leaves no database, or the new one.
    ensures any_moment { IsTrue (D.view disk.old).tells → IsUnmade (D.view disk.old)
        → LeavesOnly (D.view disk.old) (D.view disk.new) (IsNewOrNone header.now root.now) }

    // It doesn't give up by itself.
    ensures failed { IsErrOf result NewFault.Failed
        → Rose (D.view disk.old).faults (D.view disk.new).faults }
    ensures not_empty { IsErrOf result NewFault.NotEmpty → IsTrue (D.view disk.old).tells
        → HasRoot (D.view disk.old).content }

    // What stands stays.
    ensures standing { IsTrue (D.view disk.old).tells → HasRoot (D.view disk.old).content
        → IsErr result × Keeps (D.view disk.old) (D.view disk.new) }
{
    let mut slot = [0; 1024];
    disk.read(ROOT, 0, &mut slot)?;
    if !is_zeros(&slot) {
        return Err(NewFault::NotEmpty);
    }
    make_files(disk)?;
    disk.write(AIJ, 0, header)?;
    disk.barrier()?;
    disk.write(ROOT, 0, root)?;
    disk.barrier()?;
    Ok(())
}
