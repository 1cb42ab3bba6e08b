// One line as a reader sees it.
ghost use Rattle.std.specs.Prelude.{◌≡◌, ℕ, IfOk, IsErrOf, IsTrue};
ghost use Rattle.rdb_types.specs.declared.file.FileId.{FileId as File};
ghost use Rattle.rdb_outside.specs.Causes.{Rose};
ghost use Rattle.rdb_outside.specs.Disk.{OnlyReads};
ghost use Rattle.line_view.specs.Knowledge.{Lines, line_in};
ghost use Rattle.seen_lines.specs.disk_seats.Ledgers.{Ledger};
ghost use Rattle.seen_lines.specs.disk_seats.Members.{LedgerFacts};
ghost use Rattle.reader_lines.specs.Readers.{IsReader};

use line_moves::place_of;
use line_store::Fault;
use rdb_outside::Disk;
use rdb_types::{Dbkey, Image};
use version_reading::{Reader, bytes_of};
use version_writing::line_for_reader;

/// The image of a line as a reader sees it, or None: the line is read, and one version before it after another, up to the reader's own. `limit` is that of the slots of a snapshot file.
pub fn reader_line<D: Disk>(
    disk: &mut D,
    limit: u32,
    reader: &Reader,
    key: Dbkey,
) -> Result<Option<Image>, Fault>
    ensures reads { OnlyReads (D.view disk.old) (D.view disk.new) }
    ensures failed { IsErrOf result Fault.Failed
        → Rose (D.view disk.old).faults (D.view disk.new).faults }
    ensures seen { IfOk result (λ image. IsTrue (D.view disk.old).tells → (ledger : Ledger) (lines : Lines)
        → IsReader (D.view disk.old) ledger limit reader.now lines → image ≡ line_in key lines) }

    // No slot is refused.
    ensures bad { (file : File) (slot : ℕ) → IsErrOf result (Fault.Bad file slot)
        → IsTrue (D.view disk.old).tells → (ledger : Ledger)
        → LedgerFacts (D.view disk.old) ledger → ⊥ }
{
    let Some(place) = place_of(key) else {
        return Ok(None);
    };
    match line_for_reader(disk, limit, reader, key, place) {
        Ok(version) => Ok(bytes_of(version)),
        Err(fault) => Err(fault),
    }
}
