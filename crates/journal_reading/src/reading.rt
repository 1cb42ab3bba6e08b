// A journal from its header on, up to its last whole group.
ghost use Rattle.std.specs.Prelude.{◌≡◌, ◌≤◌, ◌<◌, ◌+◌, ◌⊎◌, ℕ, length, IfOk, OnOk, IsOk, IsErrOf, IsTrue};
ghost use Rattle.std.specs.List.{flat_map};
ghost use Rattle.rdb_outside.specs.rdb_types.File.{slot_bytes};
ghost use Rattle.journal_scan.specs.aij_journal.Header.{IsHeader};
ghost use Rattle.journal_scan.specs.Whole.{slots_of, AreGroups};
ghost use Rattle.rdb_outside.specs.Causes.{Rose};
ghost use Rattle.rdb_outside.specs.Disk.{OnlyReads};
ghost use Rattle.journal_reading.specs.Journal.{EndsBy, standing, IsReadUpTo};

use journal_scan::{Scan, Turn, read_header};
use rdb_outside::{Disk, Failed, FileId, NoMemory};
use std::alloc::Global;

/// Why a journal wasn't read: a device call failed, slot 0 is no header, or memory was wanted.
#[derive(Clone, Copy, Debug, PartialEq, Eq)]
pub enum AijFault {
    Failed,
    BadHeader,
    NoMemory,
}

impl From<Failed> for AijFault {
    ghost use Rattle.journal_reading.specs.declared.reading.AijFault.TheVariants as faults;

    ghost from_gives = { λ _ e. e ≡ faults.Failed };

    fn from(_: Failed) -> Self {
        AijFault::Failed
    }
}

impl From<NoMemory> for AijFault {
    ghost use Rattle.journal_reading.specs.declared.reading.AijFault.TheVariants as faults;

    ghost from_gives = { λ _ e. e ≡ faults.NoMemory };

    fn from(_: NoMemory) -> Self {
        AijFault::NoMemory
    }
}

/// Reads the whole groups of a journal. The time grows as the slots that are read, and the memory as the groups that are found.
pub fn scan<D: Disk>(alloc: Global, disk: &mut D, file: FileId) -> Result<Scan, AijFault>
    requires { slot_bytes file ≡ 512 }

    // A header stands in slot 0, and zeros stand behind some slot.
    ensures header { OnOk result (IsTrue (D.view disk.old).tells
        → (first : ℕ) × IsHeader ((D.view disk.old).content file 0) first) }
    ensures ends { OnOk result (IsTrue (D.view disk.old).tells
        → (count : ℕ) × EndsBy (D.view disk.old).content file (count + 1)) }

    // These are the whole groups of the slots behind the header, however many zeros are counted to them.
    ensures groups { IfOk result (λ scan. IsTrue (D.view disk.old).tells
        → (first count : ℕ) → IsHeader ((D.view disk.old).content file 0) first
        → EndsBy (D.view disk.old).content file (count + 1)
        → AreGroups first (standing (D.view disk.old).content file 1 count) scan.groups) }

    // The next group has the next number, and is written behind the last.
    ensures next_number { IfOk result (λ scan. IsTrue (D.view disk.old).tells
        → (first : ℕ) → IsHeader ((D.view disk.old).content file 0) first
        → scan.next_number ≡ first + length scan.groups) }
    ensures next_slot { IfOk result (λ scan. IsTrue (D.view disk.old).tells
        → scan.next_slot ≡ 1 + length (flat_map slots_of scan.groups)) }

    ensures bad_header { IsErrOf result AijFault.BadHeader → IsTrue (D.view disk.old).tells
        → (first : ℕ) → IsHeader ((D.view disk.old).content file 0) first → ⊥ }

    // It doesn't give up by itself.
    ensures failed { IsErrOf result AijFault.Failed
        → Rose (D.view disk.old).faults (D.view disk.new).faults }

    // Whatever it answers.
    ensures reads { OnlyReads (D.view disk.old) (D.view disk.new) }
    ensures moves { IsOk result → (D.view disk.old).moment < (D.view disk.new).moment }
{
    let first = first_number(disk, file)?;
    let length = disk.length(file)?;
    match read_groups(alloc, disk, file, first, length) {
        Ok(scan) => Ok(scan),
        Err(fault) => Err(fault),
    }
}

/// The number of the first group, which the header says.
pub fn first_number<D: Disk>(disk: &mut D, file: FileId) -> Result<u64, AijFault>
    requires { slot_bytes file ≡ 512 }
    ensures header { IfOk result (λ first. IsTrue (D.view disk.old).tells
        → IsHeader ((D.view disk.old).content file 0) first) }
    ensures only { IfOk result (λ first. IsTrue (D.view disk.old).tells
        → (other : ℕ) → IsHeader ((D.view disk.old).content file 0) other → other ≡ first) }
    ensures bad_header { IsErrOf result AijFault.BadHeader → IsTrue (D.view disk.old).tells
        → (first : ℕ) → IsHeader ((D.view disk.old).content file 0) first → ⊥ }
    ensures failed { IsErrOf result AijFault.Failed
        → Rose (D.view disk.old).faults (D.view disk.new).faults }
    ensures reads { OnlyReads (D.view disk.old) (D.view disk.new) }
    ensures moves { IsOk result → (D.view disk.old).moment < (D.view disk.new).moment }
{
    let mut slot = [0; 512];
    disk.read(file, 0, &mut slot)?;
    match read_header(&slot) {
        Some(first) => Ok(first),
        None => Err(AijFault::BadHeader),
    }
}

// Gives the slots behind the header to a scan, until it ends or has the last slot of the file's length.
fn read_groups<D: Disk>(
    alloc: Global,
    disk: &mut D,
    file: FileId,
    first: u64,
    length: u32,
) -> Result<Scan, AijFault>
    requires { slot_bytes file ≡ 512 }
    ensures read { IfOk result (λ scan. IsTrue (D.view disk.old).tells
        → IsReadUpTo (D.view disk.old).content file first length scan) }
    ensures bad_header { IsErrOf result AijFault.BadHeader → ⊥ }
    ensures failed { IsErrOf result AijFault.Failed
        → Rose (D.view disk.old).faults (D.view disk.new).faults }
    ensures reads { OnlyReads (D.view disk.old) (D.view disk.new) }
{
    let mut scan = Scan::new(alloc, first);
    let mut slot = [0; 512];
    for number in 1..length {
        disk.read(file, number, &mut slot)?;
        match scan.take(alloc, &slot)? {
            Turn::More => {}
            Turn::Ended => return Ok(scan),
        }
    }
    Ok(scan)
}
