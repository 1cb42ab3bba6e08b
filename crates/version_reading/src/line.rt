// What a reader sees of a line.
ghost use Rattle.std.specs.Prelude.{◌≡◌, ℕ, Some, true, IfOk, IsErr, IsTrue};
ghost use Rattle.rdb_types.specs.declared.keys.Dbkey.{Dbkey};
ghost use Rattle.rdb_types.specs.declared.keys.Line.{Line};
ghost use Rattle.rdb_outside.specs.Causes.{Rose};
ghost use Rattle.rdb_outside.specs.Disk.{OnlyReads};
ghost use Rattle.line_versions.specs.Versions.{sees};
ghost use Rattle.line_versions.specs.Course.{Course, Reading, AreRight};
ghost use Rattle.line_versions.specs.Files.{entries_in, IsWithin};
ghost use Rattle.version_reading.specs.Answer.{shown_of};

use crate::Reader;
use crate::walk::seen_from;
use rdb_outside::{Disk, Failed};
use rdb_types::{Dbkey, Image, Line, LineState};

/// The version of a line that a reader sees, where the line stands as it is given. None is answered where the line isn't there for the reader. Each version above its own costs a read, and no more slots are read than the limit of the file.
pub fn reader_version<D: Disk>(
    disk: &mut D,
    limit: u32,
    reader: &Reader,
    key: Dbkey,
    line: Line,
) -> Result<Option<Line>, Failed>
    // It shows what was committed when the reader began.
    ensures committed { IfOk result (λ seen. IsTrue (D.view disk.old).tells
        → (now : Dbkey → Line) (course : Course) (session : ℕ) (reading : Reading)
        → AreRight (entries_in (D.view disk.old).content) now course → IsWithin limit course.followed
        → course.reader session ≡ Some reading → reading.start ≡ reader.now → now key ≡ line
        → shown_of seen ≡ reading.lines key) }

    // Its transaction had ended then.
    ensures ended { IfOk result (λ seen. (version : Line) → seen ≡ Some version
        → sees reader.now version.tsn.number ≡ true) }

    // It doesn't give up by itself.
    ensures failed { IsErr result → Rose (D.view disk.old).faults (D.view disk.new).faults }

    // Whatever it answers.
    ensures reads { OnlyReads (D.view disk.old) (D.view disk.new) }
{
    match seen_from(disk, limit, reader, key, line) {
        Ok(seen) => Ok(seen),
        Err(fault) => Err(fault),
    }
}

/// The bytes of a version that is present.
pub fn bytes_of(version: Option<Line>) -> Option<Image>
    ensures { result ≡ shown_of version }
{
    let version = version?;
    match version.state {
        LineState::Present => Some(version.image),
        LineState::Never | LineState::Erased => None,
    }
}
