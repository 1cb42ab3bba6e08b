// Lines as they were before the open transactions.
ghost use Rattle.std.specs.Prelude.{◌≡◌, ◌≤◌, ℕ, IfOk, OnOk, IsErrOf, IsTrue, unwrap_or};
ghost use Rattle.std.specs.FinMap.Entries.{find};
ghost use Rattle.rdb_types.specs.Order.{dbkey_order};
ghost use Rattle.rdb_types.specs.declared.file.FileId.{FileId as File};
ghost use Rattle.rdb_outside.specs.Causes.{Rose};
ghost use Rattle.rdb_outside.specs.Disk.{OnlyReads, Image as Content};
ghost use Rattle.stable_lines.specs.Slots.{IsMember, ruj_file as ruj_named};
ghost use Rattle.stable_lines.specs.Kept.{IsRujHeader};
ghost use Rattle.stable_lines.specs.Journal.{Journal, IsJournalOf};
ghost use Rattle.before_images.specs.Before.{laid, LaysLines, HasOtherFiles};
ghost use Rattle.before_images.specs.Open.{HoldsMore};

use crate::entries::read_entries;
use crate::open::read_open;
use line_opening::OpeningFault;
use ordered_entries::Entries;
use rdb_outside::Disk;
use rdb_types::{Dbkey, Image, Items, Line, Tsn};
use std::alloc::Global;

/// A transaction that is open, and the lines that it changed, as they were before it.
#[derive(Drop)]
pub struct OpenTransaction {
    pub tsn: Tsn,
    pub before: Entries<Dbkey, Line>,
}

/// The open transactions of a database at rest, in the order of their members.
pub type BeforeImages = Items<OpenTransaction>;

// Reads the entries of a member's transaction of this number, where that isn't 0.
fn add_open<D: Disk>(
    alloc: Global,
    disk: &mut D,
    member: u32,
    number: u64,
    held: &mut BeforeImages,
) -> Result<(), OpeningFault>
    ensures none { OnOk result (number ≡ 0 → held.new ≡ held.old) }
    ensures more { OnOk result (1 ≤ number → IsTrue (D.view disk.old).tells
        → HoldsMore (D.view disk.old).content member (record { number = number }) held.old held.new) }
    ensures failed { IsErrOf result OpeningFault.Failed
        → Rose (D.view disk.old).faults (D.view disk.new).faults }
    ensures bad { (file : File) (slot : ℕ) → IsErrOf result (OpeningFault.Bad file slot) → ⊥ }
    ensures reads { OnlyReads (D.view disk.old) (D.view disk.new) }
{
    if number == 0 {
        return Ok(());
    }
    let tsn = Tsn { number };
    let before = read_entries(alloc, disk, member, tsn)?;
    match held.push(OpenTransaction { tsn, before }) {
        Ok(()) => Ok(()),
        Err(_) => Err(OpeningFault::NoMemory),
    }
}

/// Reads which transactions are open, and how the lines that they changed were before. Each journal is read once; the memory grows as the entries of open transactions, and a database that was closed takes none.
pub fn read_before_images<D: Disk>(
    alloc: Global,
    disk: &mut D,
) -> Result<BeforeImages, OpeningFault>
    // Laid over the lines as they stand, they give those that the disk's content stands for, and whatever stands in the area files.
    ensures lays { IfOk result (λ held. IsTrue (D.view disk.old).tells
        → (journal : Journal) → IsJournalOf (D.view disk.old).content journal
        → (image : Content) → HasOtherFiles (D.view disk.old).content image
        → LaysLines image journal.groups held) }

    // It doesn't give up by itself.
    ensures failed { IsErrOf result OpeningFault.Failed
        → Rose (D.view disk.old).faults (D.view disk.new).faults }

    // It is refused only where a header is none.
    ensures bad { (file : File) (slot : ℕ) → IsErrOf result (OpeningFault.Bad file slot)
        → IsTrue (D.view disk.old).tells
        → ((member : ℕ) → IsMember member → IsRujHeader ((D.view disk.old).content (ruj_named member) 0))
        → (journal : Journal) → IsJournalOf (D.view disk.old).content journal → ⊥ }

    // Whatever it answers.
    ensures reads { OnlyReads (D.view disk.old) (D.view disk.new) }
{
    let numbers = read_open(disk)?;
    let mut held = BeforeImages::new(alloc);
    for place in 0..16 {
        add_open(alloc, disk, place as u32 + 1, numbers[place], &mut held)?;
    }
    Ok(held)
}

// The line of this key that is held, and else the one that is given.
fn held_or(before: &Entries<Dbkey, Line>, key: Dbkey, line: Line) -> Line
    ensures { result ≡ unwrap_or (find dbkey_order key before.now) line }
{
    match before.find(&key) {
        Some(held) => Line {
            state: held.state,
            tsn: held.tsn,
            chain: held.chain,
            image: Image::from_bytes(held.image.bytes()),
        },
        None => line,
    }
}

/// The line that counts, of a line as it stands: where it bears an open transaction that changed it, as it was before.
pub fn line_before(held: &[OpenTransaction], key: Dbkey, line: Line) -> Line
    ensures { result ≡ laid held.now key line }
{
    for open in held {
        if open.tsn.number == line.tsn.number {
            return held_or(&open.before, key, line);
        }
    }
    line
}
