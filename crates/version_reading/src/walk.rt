// The walk of a reader from the line as it stands to its own version.
ghost use Rattle.std.specs.Prelude.{◌≡◌, ◌≤◌, ℕ, true, List, Option, Some, length, IfOk, IsErr, IsTrue};
ghost use Rattle.rdb_types.specs.declared.keys.Line.{Line};
ghost use Rattle.snapshot_file.specs.declared.entry.SnapEntry.{SnapEntry};
ghost use Rattle.rdb_outside.specs.Causes.{Rose};
ghost use Rattle.rdb_outside.specs.Disk.{OnlyReads};
ghost use Rattle.line_versions.specs.Lines.{storage_area};
ghost use Rattle.line_versions.specs.Versions.{Followed, Walk, sees, snap_of, version_of};
ghost use Rattle.line_versions.specs.Files.{entries_in, snap_file, IsWithin};
ghost use Rattle.version_reading.specs.Answer.{shown_of};

use crate::Reader;
use rdb_outside::{Disk, Failed};
use rdb_types::{Dbkey, FileId, FileKind, Line};
use snapshot_file::read_entry;

// The snapshot file of a line: that of its storage area.
pub fn file_of(key: Dbkey) -> FileId
    ensures { result ≡ snap_file (snap_of key) }
{
    FileId {
        kind: FileKind::Snap,
        number: number_of(key.area),
    }
}

// A line may say any area, so this answers for each number, as the definition does.
fn number_of(area: u32) -> u32
    ensures { result ≡ storage_area area }
{
    if area == 1 {
        1
    } else if area % 2 == 0 {
        2
    } else {
        3
    }
}

// The version of the line at that chain. None is answered where the slot is no entry, or one of another line.
fn version_before<D: Disk>(disk: &mut D, key: Dbkey, chain: u32) -> Result<Option<Line>, Failed>
    requires { 1 ≤ chain }
    ensures version { IfOk result (λ found. IsTrue (D.view disk.old).tells
        → (entry : SnapEntry) → entries_in (D.view disk.old).content (snap_of key) chain entry
        → entry.key ≡ key → found ≡ Some (version_of entry)) }
    ensures failed { IsErr result → Rose (D.view disk.old).faults (D.view disk.new).faults }
    ensures reads { OnlyReads (D.view disk.old) (D.view disk.new) }
{
    let mut slot = [0; 512];
    disk.read(file_of(key), chain - 1, &mut slot)?;
    match read_entry(&slot) {
        Some(entry) => Ok(if entry.key == key {
            Some(Line {
                state: entry.state,
                tsn: entry.tsn,
                chain: entry.previous,
                image: entry.image,
            })
        } else {
            None
        }),
        None => Ok(None),
    }
}

// Where a walk over entries that are followed leads to a version, that is answered.
pub fn seen_from<D: Disk>(
    disk: &mut D,
    limit: u32,
    reader: &Reader,
    key: Dbkey,
    line: Line,
) -> Result<Option<Line>, Failed>
    ensures line { IfOk result (λ seen. IsTrue (D.view disk.old).tells
        → (followed : Followed) → IsWithin limit followed → (over : List ℕ) (answer : Option (List ℕ))
        → length over ≤ limit
        → Walk (entries_in (D.view disk.old).content) followed reader.now key over line answer
        → shown_of seen ≡ answer) }
    ensures seen { IfOk result (λ found. (version : Line) → found ≡ Some version
        → sees reader.now version.tsn.number ≡ true) }
    ensures failed { IsErr result → Rose (D.view disk.old).faults (D.view disk.new).faults }
    ensures reads { OnlyReads (D.view disk.old) (D.view disk.new) }
{
    let mut version = line;
    for _turn in 0..limit {
        if reader.sees(version.tsn) {
            return Ok(Some(version));
        }
        if version.chain == 0 || version.chain > limit {
            return Ok(None);
        }
        match version_before(disk, key, version.chain)? {
            Some(before) => version = before,
            None => return Ok(None),
        }
    }
    if reader.sees(version.tsn) {
        Ok(Some(version))
    } else {
        Ok(None)
    }
}
