// The device calls of a backup.
ghost use Rattle.std.specs.Prelude.{◌≡◌, IsTrue, length, true};
ghost use Rattle.rdb_types.specs.declared.file.FileId.{FileId};
ghost use Rattle.rdb_outside.specs.Disk.{Keeps, Puts, Adds, IsStable};
ghost use Rattle.backup_making.specs.Making.{file_of, Steps};

use rdb_outside::Disk;
use rdb_types::{FileId, FileKind};

/// Writes a slot of a backup, and answers whether the disk did.
pub fn write_in<D: Disk>(disk: &mut D, number: u32, slot: u32, bytes: &[u8]) -> bool
    requires { length bytes.now ≡ 512 }
    ensures steps { Steps (file_of number) (D.view disk.old) (D.view disk.new) result }
    ensures pending { IsTrue (D.view disk.old).tells
        → Adds (file_of number) slot bytes.now (D.view disk.old) (D.view disk.new) }
    ensures written { result ≡ true → IsTrue (D.view disk.old).tells
        → Puts (file_of number) slot bytes.now (D.view disk.old).content (D.view disk.new).content }
    ensures either { IsTrue (D.view disk.old).tells → (i : _) → (i ≡ slot → ⊥)
        → (D.view disk.new).content (file_of number) i ≡ (D.view disk.old).content (file_of number) i }
{
    let file = FileId {
        kind: FileKind::Backup,
        number,
    };
    disk.write(file, slot, bytes).is_ok()
}

/// Makes a barrier, and answers whether the disk did.
pub fn settle<D: Disk>(disk: &mut D) -> bool
    ensures steps { (file : FileId) → Steps file (D.view disk.old) (D.view disk.new) result }
    ensures kept { IsTrue (D.view disk.old).tells → Keeps (D.view disk.old) (D.view disk.new) }
    ensures stable { result ≡ true → IsTrue (D.view disk.old).tells → IsStable (D.view disk.new) }
{
    disk.barrier().is_ok()
}
