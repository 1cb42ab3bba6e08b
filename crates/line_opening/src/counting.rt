// The entries of a transaction, counted.
ghost use Rattle.std.specs.Prelude.{◌≡◌, true, false, length, IfOk, IsErr, IsTrue};
ghost use Rattle.rdb_outside.specs.Causes.{Rose};
ghost use Rattle.rdb_outside.specs.Disk.{OnlyReads};
ghost use Rattle.line_moves.specs.ruj_journal.declared.entry.RujEntry.{RujEntry};
ghost use Rattle.line_moves.specs.ruj_journal.Entry.{IsEntry};
ghost use Rattle.line_moves.specs.stable_lines.Slots.{Undo, entry_at, ruj_file as ruj_named};
ghost use Rattle.journal_passing.specs.journal_reading.Journal.{EndsBy};
ghost use Rattle.line_opening.specs.Counting.{HasCount};

use line_moves::{read_entry, ruj_file};
use rdb_outside::{Disk, Failed};
use rdb_types::Tsn;

// Whether the slot is the entry of a transaction with this index.
fn is_entry_of(slot: &[u8], tsn: Tsn, index: u32) -> bool
    requires { length slot.now ≡ 512 }
    ensures yes { result ≡ true → (undo : Undo) × IsEntry slot.now (entry_at tsn index undo) }
    ensures no { result ≡ false → (entry : RujEntry) → IsEntry slot.now entry
        → entry.tsn ≡ tsn → entry.index ≡ index → ⊥ }
{
    let Some(entry) = read_entry(slot) else {
        return false;
    };
    if entry.tsn.number != tsn.number || entry.index != index {
        return false;
    }
    true
}

// Counts the entries in the slots before the end of the file.
fn count_within<D: Disk>(disk: &mut D, member: u32, tsn: Tsn, length: u32) -> Result<u32, Failed>
    ensures reads { OnlyReads (D.view disk.old) (D.view disk.new) }
    ensures failed { IsErr result → Rose (D.view disk.old).faults (D.view disk.new).faults }
    ensures entries { IfOk result (λ count. IsTrue (D.view disk.old).tells
        → EndsBy (D.view disk.old).content (ruj_named member) length
        → HasCount (D.view disk.old).content member tsn count) }
{
    let journal = ruj_file(member);
    let mut slot = [0; 512];
    let mut count = 0;
    for index in 1..length {
        disk.read(journal, index, &mut slot)?;
        if !is_entry_of(&slot, tsn, index) {
            return Ok(count);
        }
        count = index;
    }
    Ok(count)
}

/// How many entries a transaction has in its member's journal: those from slot 1 up to the first that is none of it with its own index. It reads one slot more than it counts, at most.
pub fn count_entries<D: Disk>(disk: &mut D, member: u32, tsn: Tsn) -> Result<u32, Failed>
    ensures reads { OnlyReads (D.view disk.old) (D.view disk.new) }
    ensures failed { IsErr result → Rose (D.view disk.old).faults (D.view disk.new).faults }
    ensures entries { IfOk result (λ count. IsTrue (D.view disk.old).tells
        → HasCount (D.view disk.old).content member tsn count) }
{
    let length = disk.length(ruj_file(member))?;
    count_within(disk, member, tsn, length)
}
