// The committed line of a key.
ghost use Rattle.std.specs.Prelude.{◌≡◌, ◌≤◌, ◌<◌, ◌^◌, ◌+◌, ◌-◌, ℕ, Option, Some, length, slice_get, IfOk, IsErrOf, IsTrue};
ghost use Rattle.rdb_types.specs.declared.file.FileId.{FileId as File};
ghost use Rattle.rdb_types.specs.declared.keys.Tsn.{Tsn as Number};
ghost use Rattle.rdb_outside.specs.Causes.{Rose};
ghost use Rattle.rdb_outside.specs.Disk.{OnlyReads};
ghost use Rattle.ruj_journal.specs.declared.entry.RujEntry.{RujEntry};
ghost use Rattle.ruj_journal.specs.Entry.{IsEntry};
ghost use Rattle.line_view.specs.Knowledge.{line_in};
ghost use Rattle.line_versions.specs.Lines.{shown as shown_of};
ghost use Rattle.stable_lines.specs.Slots.{ruj_file as journal_of};
ghost use Rattle.member_steps.specs.disk_seats.Ledgers.{Ledger};
ghost use Rattle.member_steps.specs.disk_seats.Members.{LedgerFacts};
ghost use Rattle.committed_lines.specs.Seen.{AreSeen};

use crate::seen::{HasBeforeImages, bearer};
use line_moves::{line_at, place_of, ruj_file};
use line_store::Fault;
use rdb_outside::Disk;
use rdb_types::{Dbkey, Image, Line, LineState};
use ruj_journal::read_entry;

// The image of a line that is present.
fn shown(line: Line) -> Option<Image>
    ensures { result ≡ shown_of line }
{
    match line.state {
        LineState::Present => Some(line.image),
        LineState::Never => None,
        LineState::Erased => None,
    }
}

// The before-image in a slot of a member's journal.
fn before_image<D: Disk>(disk: &mut D, member: u32, slot: u32) -> Result<Line, Fault>
    ensures reads { OnlyReads (D.view disk.old) (D.view disk.new) }
    ensures failed { IsErrOf result Fault.Failed
        → Rose (D.view disk.old).faults (D.view disk.new).faults }
    ensures before { IfOk result (λ line. IsTrue (D.view disk.old).tells → (entry : RujEntry)
        → IsEntry ((D.view disk.old).content (journal_of member) slot) entry → line ≡ entry.before) }
    ensures bad { (f : File) (s : ℕ) → IsErrOf result (Fault.Bad f s)
        → IsTrue (D.view disk.old).tells → (entry : RujEntry)
        → IsEntry ((D.view disk.old).content (journal_of member) slot) entry → ⊥ }
{
    let journal = ruj_file(member);
    let mut bytes = [0; 512];
    disk.read(journal, slot, &mut bytes)?;
    match read_entry(&bytes) {
        Some(entry) => Ok(entry.before),
        None => Err(Fault::Bad(journal, slot)),
    }
}

/// The committed image of a line, or None: the line as it stands, where it bears no open transaction; else the before-image of it in the journal of the member whose transaction it bears, which commits or is being undone. Each member stands in the place of its number. Two reads at most.
pub fn committed_line<D: Disk, T: HasBeforeImages>(
    disk: &mut D,
    key: Dbkey,
    members: &[T],
) -> Result<Option<Image>, Fault>
    requires { length members.now < 2 ^ 32 }
    ensures reads { OnlyReads (D.view disk.old) (D.view disk.new) }
    ensures failed { IsErrOf result Fault.Failed
        → Rose (D.view disk.old).faults (D.view disk.new).faults }
    ensures committed { IfOk result (λ image. IsTrue (D.view disk.old).tells → (ledger : Ledger)
        → LedgerFacts (D.view disk.old) ledger → AreSeen T.seen ledger members.now
        → image ≡ line_in key ledger.base.lines) }

    // No slot is refused.
    ensures bad { (f : File) (s : ℕ) → IsErrOf result (Fault.Bad f s)
        → IsTrue (D.view disk.old).tells → (ledger : Ledger)
        → LedgerFacts (D.view disk.old) ledger → AreSeen T.seen ledger members.now → ⊥ }
{
    let Some(place) = place_of(key) else {
        return Ok(None);
    };
    let line = match line_at(disk, key, place) {
        Ok(line) => line,
        Err(fault) => return Err(fault),
    };
    let Some(member) = bearer(members, line.tsn) else {
        return Ok(shown(line));
    };
    let Some(index) = members[member as usize].place(key) else {
        return Err(Fault::Bad(ruj_file(member), 0));
    };
    match before_image(disk, member, index + 1) {
        Ok(before) => Ok(shown(before)),
        Err(fault) => Err(fault),
    }
}
