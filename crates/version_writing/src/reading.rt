// A line as a reader sees it.
ghost use Rattle.std.specs.Prelude.{◌≡◌, ◌-◌, ℕ, Some, true, IfOk, IsErrOf, IsTrue};
ghost use Rattle.rdb_types.specs.declared.file.FileId.{FileId as File};
ghost use Rattle.rdb_types.specs.declared.keys.Line.{Line as Version};
ghost use Rattle.rdb_page.specs.Whole.{IsPageOf};
ghost use Rattle.rdb_outside.specs.Causes.{Rose};
ghost use Rattle.rdb_outside.specs.Disk.{OnlyReads};
ghost use Rattle.line_versions.specs.Versions.{sees};
ghost use Rattle.line_versions.specs.Course.{Course, Reading};
ghost use Rattle.version_reading.specs.Answer.{shown_of};
ghost use Rattle.stable_lines.specs.Slots.{area_file};
ghost use Rattle.stable_lines.specs.Progress.{Progress};
ghost use Rattle.line_moves.specs.Changes.{IsPlaceOf};
ghost use Rattle.disk_versions.specs.Versions.{VersionFacts};

use line_moves::{Place, line_at};
use line_store::Fault;
use rdb_outside::Disk;
use rdb_types::{Dbkey, Line};
use version_reading::{Reader, reader_version};

/// The version of a line that a reader sees: the line is read, and then the versions before it up to the reader's own, each with a read. None is answered where the line isn't there for the reader. `limit` is that of the slots of a snapshot file.
pub fn line_for_reader<D: Disk>(
    disk: &mut D,
    limit: u32,
    reader: &Reader,
    key: Dbkey,
    place: Place,
) -> Result<Option<Line>, Fault>
    requires { IsPlaceOf key place }
    ensures reads { OnlyReads (D.view disk.old) (D.view disk.new) }
    ensures failed { IsErrOf result Fault.Failed
        → Rose (D.view disk.old).faults (D.view disk.new).faults }
    ensures bad { (file : File) (slot : ℕ) → IsErrOf result (Fault.Bad file slot)
        → IsTrue (D.view disk.old).tells
        → IsPageOf place.file place.page
        ((D.view disk.old).content (area_file place.file) (place.page - 1)) → ⊥ }

    // It shows what was committed when the reader began.
    ensures committed { IfOk result (λ seen. IsTrue (D.view disk.old).tells
        → (now : Progress) (course : Course) (session : ℕ) (reading : Reading)
        → VersionFacts (D.view disk.old) now limit course
        → course.reader session ≡ Some reading → reading.start ≡ reader.now
        → shown_of seen ≡ reading.lines key) }

    // Its transaction had ended then.
    ensures ended { IfOk result (λ seen. (version : Version) → seen ≡ Some version
        → sees reader.now version.tsn.number ≡ true) }
{
    let line = line_at(disk, key, place)?;
    let seen = reader_version(disk, limit, reader, key, line)?;
    Ok(seen)
}
