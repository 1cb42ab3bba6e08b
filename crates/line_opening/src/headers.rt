// The headers of the members' before-image journals, read.
ghost use Rattle.std.specs.Prelude.{◌≡◌, ℕ, length, IfOk, IsErrOf, IsTrue};
ghost use Rattle.rdb_types.specs.declared.file.FileId.{FileId as File};
ghost use Rattle.rdb_outside.specs.Causes.{Rose};
ghost use Rattle.rdb_outside.specs.Disk.{OnlyReads};
ghost use Rattle.line_moves.specs.ruj_journal.Header.{number_of as number_in};
ghost use Rattle.line_moves.specs.stable_lines.Slots.{ruj_file as ruj_named, named, IsMember};
ghost use Rattle.line_moves.specs.stable_lines.Kept.{IsRujHeader};
ghost use Rattle.line_opening.specs.Headers.{AreNamed};

use line_moves::{Fault, open_tsn, ruj_file};
use rdb_outside::Disk;
use rdb_types::Tsn;

fn number_of(found: Option<Tsn>) -> u64
    ensures { result ≡ number_in found }
{
    match found {
        None => 0,
        Some(tsn) => tsn.number,
    }
}

/// The number of the transaction that a member's header names, 0 where it names none.
pub fn named_by<D: Disk>(disk: &mut D, member: u32) -> Result<u64, Fault>
    ensures reads { OnlyReads (D.view disk.old) (D.view disk.new) }
    ensures failed { IsErrOf result Fault.Failed
        → Rose (D.view disk.old).faults (D.view disk.new).faults }
    ensures names { IfOk result (λ number. IsTrue (D.view disk.old).tells
        → number ≡ named ((D.view disk.old).content (ruj_named member) 0)) }

    // Only a slot that is no header is refused.
    ensures bad { (file : File) (slot : ℕ) → IsErrOf result (Fault.Bad file slot)
        → IsTrue (D.view disk.old).tells
        → IsRujHeader ((D.view disk.old).content (ruj_named member) 0) → ⊥ }
{
    let journal = ruj_file(member);
    let mut slot = [0; 512];
    disk.read(journal, 0, &mut slot)?;
    match open_tsn(&slot) {
        Ok(found) => Ok(number_of(found)),
        Err(_) => Err(Fault::Bad(journal, 0)),
    }
}

/// What the headers of all members name, the first member's in place 0. Sixteen reads.
pub fn all_named<D: Disk>(disk: &mut D) -> Result<[u64; 16], Fault>
    ensures reads { OnlyReads (D.view disk.old) (D.view disk.new) }
    ensures failed { IsErrOf result Fault.Failed
        → Rose (D.view disk.old).faults (D.view disk.new).faults }
    ensures names { IfOk result (λ numbers. IsTrue (D.view disk.old).tells
        → AreNamed (D.view disk.old).content numbers) }

    // It is refused only where the header of some member is none.
    ensures bad { (file : File) (slot : ℕ) → IsErrOf result (Fault.Bad file slot)
        → IsTrue (D.view disk.old).tells
        → ((member : ℕ) → IsMember member → IsRujHeader ((D.view disk.old).content (ruj_named member) 0))
        → ⊥ }
{
    let mut numbers = [0; 16];
    for place in 0..16 {
        numbers[place] = named_by(disk, place as u32 + 1)?;
    }
    Ok(numbers)
}
