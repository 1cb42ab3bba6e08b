// The write of a version into its slot.
ghost use Rattle.std.specs.Prelude.{◌≡◌, ◌≤◌, ◌<◌, ◌-◌, ◌^◌, ◌⊎◌, ℕ, List, length, OnOk, IsTrue};
ghost use Rattle.snapshot_file.specs.Entry.{IsVersion};
ghost use Rattle.rdb_outside.specs.Disk.{Adds, Counts, Puts, SameContent};
ghost use Rattle.line_versions.specs.Versions.{snap_of};
ghost use Rattle.line_versions.specs.Course.{pushed};
ghost use Rattle.line_versions.specs.Files.{entries_in, snap_file};

use crate::walk::file_of;
use rdb_outside::{Disk, Failed};
use rdb_types::{Dbkey, Image, Line, Tsn};
use snapshot_file::{SnapEntry, put_entry};

/// Writes a line as it stands, which the transaction pushes aside, into the slot of that chain. One device call.
pub fn push_version<D: Disk>(
    disk: &mut D,
    chain: u32,
    key: Dbkey,
    tsn: Tsn,
    line: &Line,
) -> Result<(), Failed>
    requires number { 1 ≤ chain }
    requires pusher { tsn.number < 2 ^ 62 }
    requires maker { line.now.tsn.number < 2 ^ 62 }
    requires version { IsVersion line.now.state line.now.image }

    // The entry stands there.
    ensures stands { OnOk result (IsTrue (D.view disk.old).tells
        → entries_in (D.view disk.new).content (snap_of key) chain (pushed key tsn line.now)) }

    // Where it fails the slot is as it was or has these bytes. No other slot is written, and none has another content to fear.
    ensures puts { IsTrue (D.view disk.old).tells → (bytes : List ℕ)
        × Adds (snap_file (snap_of key)) (chain - 1) bytes (D.view disk.old) (D.view disk.new)
        × (SameContent (D.view disk.old).content (D.view disk.new).content
        ⊎ Puts (snap_file (snap_of key)) (chain - 1) bytes (D.view disk.old).content (D.view disk.new).content) }

    // It doesn't give up by itself.
    ensures counts { Counts (D.view disk.old) (D.view disk.new) result }
{
    let mut slot = [0; 512];
    put_entry(
        &mut slot,
        &SnapEntry {
            key,
            tsn: line.tsn,
            state: line.state,
            image: Image::from_bytes(line.image.bytes()),
            pusher: tsn,
            previous: line.chain,
        },
    );
    disk.write(file_of(key), chain - 1, &slot)
}
