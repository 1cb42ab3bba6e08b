// One line as a transaction sees it.
ghost use Rattle.std.specs.Prelude.{◌≡◌, ◌<◌, ◌^◌, ℕ, Some, length, IfOk, IsErrOf, IsTrue};
ghost use Rattle.rdb_types.specs.declared.file.FileId.{FileId as File};
ghost use Rattle.rdb_outside.specs.Causes.{Rose};
ghost use Rattle.rdb_outside.specs.Disk.{OnlyReads};
ghost use Rattle.line_view.specs.Knowledge.{line_in};
ghost use Rattle.line_versions.specs.Lines.{shown as shown_of};
ghost use Rattle.committed_lines.specs.disk_seats.Ledgers.{Ledger};
ghost use Rattle.committed_lines.specs.disk_seats.Members.{LedgerFacts};
ghost use Rattle.committed_lines.specs.Seen.{AreSeen};
ghost use Rattle.seen_lines.specs.Seen.{seen_by};

use committed_lines::{HasBeforeImages, committed_line};
use line_store::Fault;
use member_memory::MemberLines;
use rdb_outside::Disk;
use rdb_types::{Dbkey, Image, Line, LineState};

// The image of a line that is present.
fn shown(line: &Line) -> Option<Image>
    ensures { result ≡ shown_of line.now }
{
    match line.state {
        LineState::Present => Some(Image::from_bytes(line.image.bytes())),
        LineState::Never => None,
        LineState::Erased => None,
    }
}

/// The image of a line as a transaction with these lines of its own sees it, or None. Of a line that it wrote nothing is read.
pub fn seen_line<D: Disk, T: HasBeforeImages>(
    disk: &mut D,
    key: Dbkey,
    own: &MemberLines,
    members: &[T],
) -> Result<Option<Image>, Fault>
    requires { length members.now < 2 ^ 32 }
    ensures reads { OnlyReads (D.view disk.old) (D.view disk.new) }
    ensures failed { IsErrOf result Fault.Failed
        → Rose (D.view disk.old).faults (D.view disk.new).faults }
    ensures seen { IfOk result (λ image. IsTrue (D.view disk.old).tells → (ledger : Ledger)
        → LedgerFacts (D.view disk.old) ledger → AreSeen T.seen ledger members.now
        → image ≡ line_in key (seen_by own.now ledger.base.lines)) }

    // No slot is refused.
    ensures bad { (f : File) (s : ℕ) → IsErrOf result (Fault.Bad f s)
        → IsTrue (D.view disk.old).tells → (ledger : Ledger)
        → LedgerFacts (D.view disk.old) ledger → AreSeen T.seen ledger members.now → ⊥ }
{
    match own.line(key) {
        Some(line) => Ok(shown(line)),
        None => committed_line(disk, key, members),
    }
}
