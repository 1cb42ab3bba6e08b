// The entries of one transaction, the first of each line.
ghost use Rattle.std.specs.Prelude.{◌≡◌, ℕ, length, is_some, if◌then◌else◌, OnOk, IfOk, IfSome, IfNone, IsErrOf, IsTrue};
ghost use Rattle.std.specs.FinMap.Entries.{find, put};
ghost use Rattle.rdb_types.specs.Order.{dbkey_order};
ghost use Rattle.rdb_types.specs.declared.file.FileId.{FileId as File};
ghost use Rattle.rdb_outside.specs.Causes.{Rose};
ghost use Rattle.rdb_outside.specs.Disk.{OnlyReads};
ghost use Rattle.ruj_journal.specs.declared.entry.RujEntry.{RujEntry as Written};
ghost use Rattle.ruj_journal.specs.Entry.{IsEntry};
ghost use Rattle.journal_reading.specs.Journal.{EndsBy};
ghost use Rattle.stable_lines.specs.Slots.{ruj_file as ruj_named};
ghost use Rattle.before_images.specs.Before.{IsEntryOf, HoldsBefore};

use line_moves::ruj_file;
use line_opening::OpeningFault;
use ordered_entries::Entries;
use rdb_outside::Disk;
use rdb_types::{Dbkey, Line, Tsn};
use ruj_journal::{RujEntry, read_entry};
use std::alloc::Global;

// The entry of a transaction with this index that a slot is.
fn entry_of(slot: &[u8], tsn: Tsn, index: u32) -> Option<RujEntry>
    requires { length slot.now ≡ 512 }
    ensures some { IfSome result (IsEntryOf slot.now tsn index) }
    ensures none { IfNone result ((entry : Written) → IsEntry slot.now entry
        → entry.tsn ≡ tsn → entry.index ≡ index → ⊥) }
{
    let entry = read_entry(slot)?;
    if entry.tsn.number == tsn.number && entry.index == index {
        Some(entry)
    } else {
        None
    }
}

// Holds a line where none of this key is held.
fn hold(held: &mut Entries<Dbkey, Line>, key: Dbkey, before: Line) -> Result<(), OpeningFault>
    ensures ok { OnOk result (held.new
        ≡ (if is_some (find dbkey_order key held.old) then held.old else put dbkey_order key before held.old)) }
    ensures memory { IsErrOf result OpeningFault.Failed → ⊥ }
    ensures bad { (file : File) (slot : ℕ) → IsErrOf result (OpeningFault.Bad file slot) → ⊥ }
{
    if held.find(&key).is_some() {
        return Ok(());
    }
    match held.put(key, before) {
        Ok(()) => Ok(()),
        Err(_) => Err(OpeningFault::NoMemory),
    }
}

// Reads the entries in the slots before the end of the file.
fn read_to<D: Disk>(
    alloc: Global,
    disk: &mut D,
    member: u32,
    tsn: Tsn,
    end: u32,
) -> Result<Entries<Dbkey, Line>, OpeningFault>
    ensures before { IfOk result (λ held. IsTrue (D.view disk.old).tells
        → EndsBy (D.view disk.old).content (ruj_named member) end
        → HoldsBefore (D.view disk.old).content member tsn held) }
    ensures failed { IsErrOf result OpeningFault.Failed
        → Rose (D.view disk.old).faults (D.view disk.new).faults }
    ensures bad { (file : File) (slot : ℕ) → IsErrOf result (OpeningFault.Bad file slot) → ⊥ }
    ensures reads { OnlyReads (D.view disk.old) (D.view disk.new) }
{
    let journal = ruj_file(member);
    let mut held = Entries::new(alloc);
    let mut slot = [0; 512];
    for index in 1..end {
        disk.read(journal, index, &mut slot)?;
        match entry_of(&slot, tsn, index) {
            Some(entry) => hold(&mut held, entry.key, entry.before)?,
            None => return Ok(held),
        }
    }
    Ok(held)
}

// The lines that a transaction changed, as they were before it: of each the first entry has it.
pub fn read_entries<D: Disk>(
    alloc: Global,
    disk: &mut D,
    member: u32,
    tsn: Tsn,
) -> Result<Entries<Dbkey, Line>, OpeningFault>
    ensures before { IfOk result (λ held. IsTrue (D.view disk.old).tells
        → HoldsBefore (D.view disk.old).content member tsn held) }
    ensures failed { IsErrOf result OpeningFault.Failed
        → Rose (D.view disk.old).faults (D.view disk.new).faults }
    ensures bad { (file : File) (slot : ℕ) → IsErrOf result (OpeningFault.Bad file slot) → ⊥ }
    ensures reads { OnlyReads (D.view disk.old) (D.view disk.new) }
{
    let end = disk.length(ruj_file(member))?;
    read_to(alloc, disk, member, tsn, end)
}
