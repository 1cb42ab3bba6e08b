// The lines of a logical area as a reader sees them.
ghost use Rattle.std.specs.Prelude.{◌≡◌, ℕ, List, Option, IfOk, OnOk, IsErrOf, IsTrue};
ghost use Rattle.rdb_types.specs.declared.file.FileId.{FileId as File};
ghost use Rattle.rdb_outside.specs.Causes.{Rose};
ghost use Rattle.rdb_outside.specs.Disk.{OnlyReads};
ghost use Rattle.rdb_page.specs.Page.{IsOwner};
ghost use Rattle.line_view.specs.Knowledge.{Lines, IsInOrder, line_in, lines_in};
ghost use Rattle.line_store.specs.declared.answers.Fault.TheVariants.{Failed, Bad};
ghost use Rattle.seen_lines.specs.disk_seats.Ledgers.{Ledger};
ghost use Rattle.seen_lines.specs.disk_seats.Members.{LedgerFacts};
ghost use Rattle.seen_lines.specs.committed_tables.Tables.{WereUsed};
ghost use Rattle.seen_lines.specs.Seen.{IsOfArea, with_found};
ghost use Rattle.reader_lines.specs.Readers.{IsReader};

use crate::reader_line;
use line_store::ReadStop;
use ordered_entries::Entries;
use rdb_outside::Disk;
use rdb_types::{Dbkey, Image, NoMemory};
use seen_lines::PageTable;
use std::alloc::Global;
use version_reading::Reader;

// Puts the image of a line at the reader's start with the others, where it had one.
fn gather<D: Disk>(
    disk: &mut D,
    limit: u32,
    reader: &Reader,
    found: &mut Entries<Dbkey, Image>,
    key: Dbkey,
) -> Result<(), ReadStop>
    ensures reads { OnlyReads (D.view disk.old) (D.view disk.new) }
    ensures failed { IsErrOf result (ReadStop.Fault Failed)
        → Rose (D.view disk.old).faults (D.view disk.new).faults }
    ensures gathers { OnOk result ((image : Option (List ℕ)) × (found.new ≡ with_found key image found.old)
        × (IsTrue (D.view disk.old).tells → (ledger : Ledger) (lines : Lines)
        → IsReader (D.view disk.old) ledger limit reader.now lines → image ≡ line_in key lines)) }
    ensures bad { (file : File) (slot : ℕ) → IsErrOf result (ReadStop.Fault (Bad file slot))
        → IsTrue (D.view disk.old).tells → (ledger : Ledger)
        → LedgerFacts (D.view disk.old) ledger → ⊥ }
{
    let image = match reader_line(disk, limit, reader, key) {
        Ok(Some(image)) => image,
        Ok(None) => return Ok(()),
        Err(fault) => return Err(ReadStop::Fault(fault)),
    };
    match found.put(key, image) {
        Ok(()) => Ok(()),
        Err(NoMemory {}) => Err(ReadStop::NoMemory),
    }
}

/// The lines of a logical area as a reader sees them, of those that were ever used by the table of the area's file, each read by itself.
pub fn reader_area<D: Disk>(
    alloc: Global,
    disk: &mut D,
    limit: u32,
    reader: &Reader,
    table: &PageTable,
    area: u32,
) -> Result<Entries<Dbkey, Image>, ReadStop>
    ensures reads { OnlyReads (D.view disk.old) (D.view disk.new) }
    ensures failed { IsErrOf result (ReadStop.Fault Failed)
        → Rose (D.view disk.old).faults (D.view disk.new).faults }

    // They are of this area, whatever the disk tells.
    ensures area { IfOk result (IsOfArea area) }
    ensures seen { IfOk result (λ found. IsTrue (D.view disk.old).tells
        → (ledger : Ledger) (lines : Lines) (file : ℕ)
        → IsReader (D.view disk.old) ledger limit reader.now lines → IsInOrder lines
        → IsOwner file area → WereUsed table.now file lines → found ≡ lines_in area lines) }

    // No slot is refused.
    ensures bad { (file : File) (slot : ℕ) → IsErrOf result (ReadStop.Fault (Bad file slot))
        → IsTrue (D.view disk.old).tells → (ledger : Ledger)
        → LedgerFacts (D.view disk.old) ledger → ⊥ }
{
    let mut found = Entries::new(alloc);
    let mut from = None;
    while let Some(key) = table.next_ever(area, from) {
        if let Err(stop) = gather(disk, limit, reader, &mut found, key) {
            return Err(stop);
        }
        from = Some(key);
    }
    Ok(found)
}
