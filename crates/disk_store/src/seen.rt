// What a session's transaction sees.
ghost use Rattle.std.specs.Prelude.{◌≡◌, ℕ, [], true, false, IfOk, IsErrOf, IsTrue};
ghost use Rattle.rdb_types.specs.declared.file.FileId.{FileId as File};
ghost use Rattle.rdb_outside.specs.Causes.{Rose};
ghost use Rattle.rdb_outside.specs.Disk.{OnlyReads};
ghost use Rattle.line_view.specs.Knowledge.{Lines, IsInOrder, line_in, lines_in};
ghost use Rattle.line_store.specs.declared.answers.Fault.TheVariants.{Failed, Bad};
ghost use Rattle.line_store.specs.Seats.{IsMember, IsAtRest};
ghost use Rattle.line_store.specs.Shelves.{Shelf, seen_by};
ghost use Rattle.stable_lines.specs.Slots.{IsAreaFile};
ghost use Rattle.ledger_versions.specs.disk_seats.Ledgers.{Ledger};
ghost use Rattle.ledger_versions.specs.disk_seats.Members.{LedgerFacts};
ghost use Rattle.reader_lines.specs.committed_lines.Seen.{AreSeen};
ghost use Rattle.member_rooms.specs.committed_tables.Tables.{WereUsed};
ghost use Rattle.reader_lines.specs.seen_lines.Seen.{IsOfArea, seen_by as seen_with};
ghost use Rattle.reader_lines.specs.Readers.{IsReader as IsReaderOf};
ghost use Rattle.disk_store.specs.declared.member.MemberStage.TheVariants as stage;
ghost use Rattle.disk_store.specs.BeforeImages.{seen_of};
ghost use Rattle.disk_store.specs.Seats.{stand_at};
ghost use Rattle.disk_store.specs.Shown.{pages_of, Shown};

use crate::{Held, Member, MemberStage};
use area_files::storage_area;
use line_store::{Fault, ReadStop};
use member_memory::MemberLines;
use ordered_entries::Entries;
use rdb_outside::Disk;
use rdb_types::{Dbkey, Image, NoMemory, Session};
use reader_lines::{own_area, reader_area, reader_line, seen_area, seen_line};
use version_reading::Reader;

impl Member {
    // Whether it reads.
    fn is_reading(&self) -> bool
        ensures yes { result ≡ true → self.now.stage ≡ stage.Reading }
        ensures no { result ≡ false → self.now.stage ≡ stage.Reading → ⊥ }
    {
        self.stage == MemberStage::Reading
    }
}

// The image of a line as a session's transaction sees it.
pub(crate) fn line_seen<D: Disk>(
    disk: &mut D,
    held: &Held,
    s: Session,
    key: Dbkey,
) -> Result<Option<Image>, Fault>
    requires member { IsMember s.number }
    requires seat { IsAtRest (stand_at held.now.members s.number) }
    ensures reads { OnlyReads (D.view disk.old) (D.view disk.new) }
    ensures failed { IsErrOf result Fault.Failed
        → Rose (D.view disk.old).faults (D.view disk.new).faults }
    ensures seen { IfOk result (λ image. (h : Shelf) → Shown (D.view disk.old) held.now h
        → image ≡ line_in key (seen_by s.number h)) }
    ensures bad { (file : File) (slot : ℕ) → IsErrOf result (Bad file slot)
        → (h : Shelf) → Shown (D.view disk.old) held.now h → ⊥ }
{
    let member = held.member(s);
    if member.is_reading() {
        return reader_line(disk, held.limits.snaps, &member.reader, key);
    }
    seen_line(disk, key, &member.written, held.members.as_slice())
}

// The lines of an area, of which the committed ones are read, with these lines over them.
fn area_written<D: Disk>(
    disk: &mut D,
    held: &Held,
    own: &MemberLines,
    area: u32,
) -> Result<Entries<Dbkey, Image>, ReadStop>
    ensures reads { OnlyReads (D.view disk.old) (D.view disk.new) }
    ensures failed { IsErrOf result (ReadStop.Fault Failed)
        → Rose (D.view disk.old).faults (D.view disk.new).faults }
    ensures area { IfOk result (IsOfArea area) }
    ensures seen { IfOk result (λ found. IsTrue (D.view disk.old).tells → (ledger : Ledger)
        → LedgerFacts (D.view disk.old) ledger → AreSeen seen_of ledger held.now.members
        → ((file : ℕ) → IsAreaFile file → WereUsed (pages_of held.now.tables file) file ledger.base.lines)
        → found ≡ lines_in area (seen_with own.now ledger.base.lines)) }
    ensures bad { (file : File) (slot : ℕ) → IsErrOf result (ReadStop.Fault (Bad file slot))
        → IsTrue (D.view disk.old).tells → (ledger : Ledger)
        → LedgerFacts (D.view disk.old) ledger → AreSeen seen_of ledger held.now.members → ⊥ }
{
    let members = held.members.as_slice();
    if let Some(file) = storage_area(area) {
        return seen_area(held.alloc, disk, held.table(file), area, own, members);
    }
    match own_area(held.alloc, area, own) {
        Ok(found) => Ok(found),
        Err(NoMemory {}) => Err(ReadStop::NoMemory),
    }
}

// The lines of an area at a reader's start.
fn area_at_start<D: Disk>(
    disk: &mut D,
    held: &Held,
    reader: &Reader,
    area: u32,
) -> Result<Entries<Dbkey, Image>, ReadStop>
    ensures reads { OnlyReads (D.view disk.old) (D.view disk.new) }
    ensures failed { IsErrOf result (ReadStop.Fault Failed)
        → Rose (D.view disk.old).faults (D.view disk.new).faults }
    ensures area { IfOk result (IsOfArea area) }
    ensures seen { IfOk result (λ found. IsTrue (D.view disk.old).tells → (ledger : Ledger) (lines : Lines)
        → IsReaderOf (D.view disk.old) ledger held.now.limits.snaps reader.now lines → IsInOrder lines
        → ((file : ℕ) → IsAreaFile file → WereUsed (pages_of held.now.tables file) file lines)
        → found ≡ lines_in area lines) }
    ensures bad { (file : File) (slot : ℕ) → IsErrOf result (ReadStop.Fault (Bad file slot))
        → IsTrue (D.view disk.old).tells → (ledger : Ledger)
        → LedgerFacts (D.view disk.old) ledger → ⊥ }
{
    if let Some(file) = storage_area(area) {
        let limit = held.limits.snaps;
        return reader_area(held.alloc, disk, limit, reader, held.table(file), area);
    }
    Ok(Entries::new(held.alloc))
}

// The lines of an area as a session's transaction sees them.
pub(crate) fn area_seen<D: Disk>(
    disk: &mut D,
    held: &Held,
    s: Session,
    area: u32,
) -> Result<Entries<Dbkey, Image>, ReadStop>
    requires member { IsMember s.number }
    requires seat { IsAtRest (stand_at held.now.members s.number) }
    ensures reads { OnlyReads (D.view disk.old) (D.view disk.new) }
    ensures failed { IsErrOf result (ReadStop.Fault Failed)
        → Rose (D.view disk.old).faults (D.view disk.new).faults }

    // They are of this area, whatever the disk tells.
    ensures area { IfOk result (IsOfArea area) }
    ensures seen { IfOk result (λ found. (h : Shelf) → Shown (D.view disk.old) held.now h
        → found ≡ lines_in area (seen_by s.number h)) }
    ensures bad { (file : File) (slot : ℕ) → IsErrOf result (ReadStop.Fault (Bad file slot))
        → (h : Shelf) → Shown (D.view disk.old) held.now h → ⊥ }
{
    let member = held.member(s);
    if member.is_reading() {
        return area_at_start(disk, held, &member.reader, area);
    }
    area_written(disk, held, &member.written, area)
}
