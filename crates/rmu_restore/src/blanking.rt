// All pages and all before-image journals become zeros. Files that are gone are made anew.
ghost use Rattle.std.specs.Prelude.{◌≡◌, ◌≢◌, ◌≤◌, ◌<◌, ℕ, length, OnOk, IsErr, IsTrue};
ghost use Rattle.rdb_types.specs.File.{slot_bytes};
ghost use Rattle.rdb_outside.specs.Causes.{Rose};
ghost use Rattle.rdb_outside.specs.Disk.{zeros};
ghost use Rattle.new_database.specs.Maker.{root_file as root_named};
ghost use Rattle.line_versions.specs.Files.{snap_file as snap_named};
ghost use Rattle.stable_lines.specs.Slots.{area_file as area_named, ruj_file as ruj_named};
ghost use Rattle.guarded_lines.specs.Laying.{IsArea};
ghost use Rattle.guarded_root.specs.Guarded.{IsFile, RunsBehind};
ghost use Rattle.rmu_restore.specs.Laying.{IsJournal, IsSnapshot, IsWritten, IsBlank};

use guarded_root::{sweep, write_guarded};
use line_moves::{area_file, ruj_file};
use rdb_outside::{Disk, Failed};
use rdb_types::{FileId, FileKind};

// Writes zeros to all slots of a file. The first is written before the length is asked for: a file that is gone has none, and is made so.
fn blank_file<D: Disk>(disk: &mut D, file: FileId, blank: &[u8]) -> Result<(), Failed>
    requires size { length blank.now ≡ slot_bytes file }
    requires blank { blank.now ≡ zeros file }
    requires other { file ≢ root_named }
    ensures failed { IsErr result → Rose (D.view disk.old).faults (D.view disk.new).faults }
    ensures zeros { OnOk result (IsTrue (D.view disk.old).tells → (slot : ℕ)
        → (D.view disk.new).content file slot ≡ zeros file) }
    ensures runs { RunsBehind (IsFile file) (D.view disk.old) (D.view disk.new) }
{
    write_guarded(disk, file, 0, blank)?;
    sweep(disk, file, blank)
}

fn snap_file(number: u32) -> FileId
    ensures { result ≡ snap_named number }
{
    FileId {
        kind: FileKind::Snap,
        number,
    }
}

// Writes zeros to the first slots of the snapshot files, so that each is there. No reader looks behind a line of a restored database.
fn blank_snapshots<D: Disk>(disk: &mut D) -> Result<(), Failed>
    ensures failed { IsErr result → Rose (D.view disk.old).faults (D.view disk.new).faults }
    ensures runs { RunsBehind IsSnapshot (D.view disk.old) (D.view disk.new) }
{
    let blank = [0; 512];
    for file in 1..4 {
        write_guarded(disk, snap_file(file), 0, &blank)?;
    }
    Ok(())
}

// Writes zeros to all slots of the area files.
fn blank_areas<D: Disk>(disk: &mut D) -> Result<(), Failed>
    ensures failed { IsErr result → Rose (D.view disk.old).faults (D.view disk.new).faults }
    ensures blank { OnOk result (IsTrue (D.view disk.old).tells
        → (file slot : ℕ) → 1 ≤ file → file < 4
        → (D.view disk.new).content (area_named file) slot ≡ zeros (area_named file)) }
    ensures runs { RunsBehind IsArea (D.view disk.old) (D.view disk.new) }
{
    let blank = [0; 1024];
    for file in 1..4 {
        blank_file(disk, area_file(file), &blank)?;
    }
    Ok(())
}

// Writes zeros to all slots of the before-image journals.
fn blank_journals<D: Disk>(disk: &mut D) -> Result<(), Failed>
    ensures failed { IsErr result → Rose (D.view disk.old).faults (D.view disk.new).faults }
    ensures blank { OnOk result (IsTrue (D.view disk.old).tells
        → (member slot : ℕ) → 1 ≤ member → member < 17
        → (D.view disk.new).content (ruj_named member) slot ≡ zeros (ruj_named member)) }
    ensures runs { RunsBehind IsJournal (D.view disk.old) (D.view disk.new) }
{
    let blank = [0; 512];
    for member in 1..17 {
        blank_file(disk, ruj_file(member), &blank)?;
    }
    Ok(())
}

/// Writes zeros to all slots of the area files and of the before-image journals that may not be zeros, and to the first slot of each file of the database that may be gone.
pub(crate) fn blank_all<D: Disk>(disk: &mut D) -> Result<(), Failed>
    ensures failed { IsErr result → Rose (D.view disk.old).faults (D.view disk.new).faults }
    ensures blank { OnOk result (IsTrue (D.view disk.old).tells → IsBlank (D.view disk.new).content) }
    ensures runs { RunsBehind IsWritten (D.view disk.old) (D.view disk.new) }
{
    blank_snapshots(disk)?;
    blank_areas(disk)?;
    blank_journals(disk)
}
