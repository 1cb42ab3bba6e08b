// The lines of a logical area as a transaction sees them.
ghost use Rattle.std.specs.Prelude.{◌≡◌, ◌<◌, ◌^◌, ℕ, List, [], Option, Some, length, map, IfOk, OnOk, IsErrOf, IsTrue};
ghost use Rattle.rdb_types.specs.declared.file.FileId.{FileId as File};
ghost use Rattle.rdb_outside.specs.Causes.{Rose};
ghost use Rattle.rdb_outside.specs.Disk.{OnlyReads};
ghost use Rattle.rdb_page.specs.Page.{IsOwner};
ghost use Rattle.line_view.specs.Knowledge.{Lines, IsInOrder, line_in, lines_in};
ghost use Rattle.line_view.specs.Held.{entry_of};
ghost use Rattle.line_versions.specs.Lines.{shown};
ghost use Rattle.line_store.specs.declared.answers.Fault.TheVariants.{Failed, Bad};
ghost use Rattle.committed_lines.specs.disk_seats.Ledgers.{Ledger};
ghost use Rattle.committed_lines.specs.disk_seats.Members.{LedgerFacts};
ghost use Rattle.committed_lines.specs.Seen.{AreSeen};
ghost use Rattle.committed_tables.specs.Tables.{WereUsed};
ghost use Rattle.seen_lines.specs.Seen.{IsOfArea, laid_in, seen_by, with_found};

use committed_lines::{HasBeforeImages, committed_line};
use committed_tables::PageTable;
use line_store::{Fault, ReadStop};
use line_view::PresentLine;
use member_memory::MemberLines;
use ordered_entries::Entries;
use rdb_outside::Disk;
use rdb_types::{Dbkey, Image, Line, LineState, NoMemory};
use std::alloc::Global;

// Puts the committed image of a line with the others, where it has one.
fn gather<D: Disk, T: HasBeforeImages>(
    disk: &mut D,
    found: &mut Entries<Dbkey, Image>,
    key: Dbkey,
    members: &[T],
) -> Result<(), ReadStop>
    requires { length members.now < 2 ^ 32 }
    ensures reads { OnlyReads (D.view disk.old) (D.view disk.new) }
    ensures failed { IsErrOf result (ReadStop.Fault Failed)
        → Rose (D.view disk.old).faults (D.view disk.new).faults }
    ensures gathers { OnOk result ((image : Option (List ℕ)) × (found.new ≡ with_found key image found.old)
        × (IsTrue (D.view disk.old).tells → (ledger : Ledger)
        → LedgerFacts (D.view disk.old) ledger → AreSeen T.seen ledger members.now
        → image ≡ line_in key ledger.base.lines)) }
    ensures bad { (f : File) (s : ℕ) → IsErrOf result (ReadStop.Fault (Bad f s))
        → IsTrue (D.view disk.old).tells → (ledger : Ledger)
        → LedgerFacts (D.view disk.old) ledger → AreSeen T.seen ledger members.now → ⊥ }
{
    let image = match committed_line(disk, key, members) {
        Ok(Some(image)) => image,
        Ok(None) => return Ok(()),
        Err(fault) => return Err(ReadStop::Fault(fault)),
    };
    match found.put(key, image) {
        Ok(()) => Ok(()),
        Err(NoMemory {}) => Err(ReadStop::NoMemory),
    }
}

// The committed lines of an area, of those that were ever used by the table.
fn committed_area<D: Disk, T: HasBeforeImages>(
    alloc: Global,
    disk: &mut D,
    table: &PageTable,
    area: u32,
    members: &[T],
) -> Result<Entries<Dbkey, Image>, ReadStop>
    requires { length members.now < 2 ^ 32 }
    ensures reads { OnlyReads (D.view disk.old) (D.view disk.new) }
    ensures failed { IsErrOf result (ReadStop.Fault Failed)
        → Rose (D.view disk.old).faults (D.view disk.new).faults }
    ensures area { IfOk result (IsOfArea area) }
    ensures committed { IfOk result (λ found. IsTrue (D.view disk.old).tells
        → (ledger : Ledger) (file : ℕ)
        → LedgerFacts (D.view disk.old) ledger → AreSeen T.seen ledger members.now
        → IsOwner file area → WereUsed table.now file ledger.base.lines
        → found ≡ lines_in area ledger.base.lines) }
    ensures bad { (f : File) (s : ℕ) → IsErrOf result (ReadStop.Fault (Bad f s))
        → IsTrue (D.view disk.old).tells → (ledger : Ledger)
        → LedgerFacts (D.view disk.old) ledger → AreSeen T.seen ledger members.now → ⊥ }
{
    let mut found = Entries::new(alloc);
    let mut from = None;
    while let Some(key) = table.next_ever(area, from) {
        if let Err(stop) = gather(disk, &mut found, key, members) {
            return Err(stop);
        }
        from = Some(key);
    }
    Ok(found)
}

// Lays a line over those of an area, where it is of the area.
fn lay_line(
    found: &mut Entries<Dbkey, Image>,
    area: u32,
    key: Dbkey,
    line: &Line,
) -> Result<(), NoMemory>
    ensures { OnOk result (found.new ≡ laid_in area key (shown line.now) found.old) }
{
    if key.area != area {
        return Ok(());
    }
    match line.state {
        LineState::Present => found.put(key, Image::from_bytes(line.image.bytes())),
        LineState::Never => {
            let _before = found.remove(&key);
            Ok(())
        }
        LineState::Erased => {
            let _before = found.remove(&key);
            Ok(())
        }
    }
}

// The lines with those of its own over them.
fn lay_own(found: &mut Entries<Dbkey, Image>, area: u32, own: &MemberLines) -> Result<(), NoMemory>
    ensures area { OnOk result (IsOfArea area found.old → IsOfArea area found.new) }
    ensures laid { OnOk result ((committed : Lines) → IsInOrder committed
        → found.old ≡ lines_in area committed
        → found.new ≡ lines_in area (seen_by own.now committed)) }
{
    for (key, line) in own.lines() {
        lay_line(found, area, *key, line)?;
    }
    Ok(())
}

/// The lines of a logical area as a transaction with these lines of its own sees them, by the table of the area's file.
pub fn seen_area<D: Disk, T: HasBeforeImages>(
    alloc: Global,
    disk: &mut D,
    table: &PageTable,
    area: u32,
    own: &MemberLines,
    members: &[T],
) -> Result<Entries<Dbkey, Image>, ReadStop>
    requires { length members.now < 2 ^ 32 }
    ensures reads { OnlyReads (D.view disk.old) (D.view disk.new) }
    ensures failed { IsErrOf result (ReadStop.Fault Failed)
        → Rose (D.view disk.old).faults (D.view disk.new).faults }

    // They are of this area, whatever the disk tells.
    ensures area { IfOk result (IsOfArea area) }
    ensures seen { IfOk result (λ found. IsTrue (D.view disk.old).tells
        → (ledger : Ledger) (file : ℕ)
        → LedgerFacts (D.view disk.old) ledger → AreSeen T.seen ledger members.now
        → IsOwner file area → WereUsed table.now file ledger.base.lines
        → found ≡ lines_in area (seen_by own.now ledger.base.lines)) }

    // No slot is refused.
    ensures bad { (f : File) (s : ℕ) → IsErrOf result (ReadStop.Fault (Bad f s))
        → IsTrue (D.view disk.old).tells → (ledger : Ledger)
        → LedgerFacts (D.view disk.old) ledger → AreSeen T.seen ledger members.now → ⊥ }
{
    let mut found = match committed_area(alloc, disk, table, area, members) {
        Ok(found) => found,
        Err(stop) => return Err(stop),
    };
    match lay_own(&mut found, area, own) {
        Ok(()) => Ok(found),
        Err(NoMemory {}) => Err(ReadStop::NoMemory),
    }
}

/// The lines that a transaction sees of a logical area of which none is committed: its own.
pub fn own_area(
    alloc: Global,
    area: u32,
    own: &MemberLines,
) -> Result<Entries<Dbkey, Image>, NoMemory>
    ensures area { IfOk result (IsOfArea area) }
    ensures seen { IfOk result (λ found. (committed : Lines) → IsInOrder committed
        → lines_in area committed ≡ [] → found ≡ lines_in area (seen_by own.now committed)) }
{
    let mut found = Entries::new(alloc);
    lay_own(&mut found, area, own)?;
    Ok(found)
}

/// Some lines as a list of present lines.
pub fn present_lines(
    alloc: Global,
    found: &Entries<Dbkey, Image>,
) -> Result<Vec<PresentLine>, NoMemory>
    ensures { IfOk result (λ lines. map entry_of lines.items ≡ found.now) }
{
    let mut lines = Vec::new(alloc);
    for (key, image) in found.as_slice() {
        lines.push(PresentLine {
            key: *key,
            image: Image::from_bytes(image.bytes()),
        })?;
    }
    Ok(lines)
}
