// The copy of a line as a reader sees it.
ghost use Rattle.std.specs.Prelude.{◌≡◌, ℕ, Some, true, false, IfOk, IsErrOf, IsTrue};
ghost use Rattle.rdb_types.specs.declared.file.FileId.{FileId as File};
ghost use Rattle.rdb_types.specs.declared.keys.Line.{Line as Version};
ghost use Rattle.rdb_outside.specs.Causes.{Rose};
ghost use Rattle.rdb_outside.specs.Disk.{OnlyReads};
ghost use Rattle.line_view.specs.Knowledge.{Lines, line_in};
ghost use Rattle.line_versions.specs.Versions.{sees};
ghost use Rattle.version_reading.specs.Answer.{shown_of};
ghost use Rattle.disk_seats.specs.Ledgers.{Ledger};
ghost use Rattle.disk_seats.specs.Members.{LedgerFacts};
ghost use Rattle.reader_lines.specs.Readers.{IsReader};
ghost use Rattle.backup_file.specs.Line.{IsAllowed};
ghost use Rattle.backup_steps.specs.Copies.{ComesOf, HasRoom};

use backup_file::BackupLine;
use line_moves::place_of;
use line_store::Fault;
use next_lines::NextLine;
use rdb_outside::Disk;
use rdb_types::{Dbkey, Line, LineState};
use version_reading::Reader;
use version_writing::line_for_reader;

/// What comes of the version that a reader sees: the line isn't there for it; its copy; or a line that the backup may not have, as none is that was committed.
#[derive(Drop)]
pub enum Copied {
    Absent,
    Present(BackupLine),
    Unfit,
}

/// The version of a line that a reader sees: the line is read, and one version before it after another.
pub(crate) fn version_seen<D: Disk>(
    disk: &mut D,
    limit: u32,
    reader: &Reader,
    key: Dbkey,
) -> Result<Option<Line>, Fault>
    ensures reads { OnlyReads (D.view disk.old) (D.view disk.new) }
    ensures failed { IsErrOf result Fault.Failed
        → Rose (D.view disk.old).faults (D.view disk.new).faults }
    ensures seen { IfOk result (λ version. IsTrue (D.view disk.old).tells
        → (ledger : Ledger) (lines : Lines)
        → IsReader (D.view disk.old) ledger limit reader.now lines
        → shown_of version ≡ line_in key lines) }
    ensures ended { IfOk result (λ found. (version : Version) → found ≡ Some version
        → sees reader.now version.tsn.number ≡ true) }

    // No slot is refused.
    ensures bad { (file : File) (slot : ℕ) → IsErrOf result (Fault.Bad file slot)
        → IsTrue (D.view disk.old).tells → (ledger : Ledger)
        → LedgerFacts (D.view disk.old) ledger → ⊥ }
{
    let Some(place) = place_of(key) else {
        return Ok(None);
    };
    match line_for_reader(disk, limit, reader, key, place) {
        Ok(version) => Ok(version),
        Err(fault) => Err(fault),
    }
}

fn is_allowed(line: &BackupLine) -> bool
    ensures yes { result ≡ true → IsAllowed line.now }
    ensures no { result ≡ false → IsAllowed line.now → ⊥ }
{
    let length = line.image.bytes().len();
    (line.class == 208 || line.class == 440)
        && length <= line.class as usize
        && line.tsn.number < 1 << 62
}

// Whether a backup of so many lines may have this one more.
fn has_room(count: u32, line: &BackupLine) -> bool
    ensures yes { result ≡ true → HasRoom count line.now }
    ensures no { result ≡ false → HasRoom count line.now → ⊥ }
{
    is_allowed(line) && count < u32::MAX - 1
}

// The copy of a version, where it is present.
fn fitting(count: u32, next: NextLine, version: Line) -> Copied
    ensures { ComesOf count next (Some version) result }
{
    match version.state {
        LineState::Present => {
            let line = BackupLine {
                key: next.key,
                class: next.class,
                tsn: version.tsn,
                image: version.image,
            };
            if has_room(count, &line) {
                Copied::Present(line)
            } else {
                Copied::Unfit
            }
        }
        LineState::Never | LineState::Erased => Copied::Absent,
    }
}

/// The copy of a version that a reader sees, for a backup of so many lines.
pub(crate) fn copy_for(count: u32, next: NextLine, version: Option<Line>) -> Copied
    ensures { ComesOf count next version result }
{
    match version {
        Some(version) => fitting(count, next, version),
        None => Copied::Absent,
    }
}
