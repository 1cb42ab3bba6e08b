// What an opening reads behind its first barrier.
ghost use Rattle.std.specs.Prelude.{◌≡◌, ◌≤◌, ◌⊎◌, true, false, ℕ, length, IfOk, IsErr, IsErrOf, IfSome, IfNone, IsTrue};
ghost use Rattle.rdb_types.specs.declared.file.FileId.{FileId as File};
ghost use Rattle.rdb_outside.specs.Causes.{Rose};
ghost use Rattle.rdb_outside.specs.Disk.{OnlyReads};
ghost use Rattle.root_file.specs.Root.{IsAllowed};
ghost use Rattle.new_database.specs.Maker.{root_file as root_named};
ghost use Rattle.line_opening.specs.Counting.{HasCount};
ghost use Rattle.database_opening.specs.Reading.{IsOpenedRoot, AreCounted};

use line_opening::{count_entries, root_file};
use line_store::Fault;
use rdb_outside::{Disk, Failed};
use rdb_types::Tsn;
use root_file::{Root, read_root};

// Whether a database of this state may be opened.
fn is_opened(state: u8) -> bool
    ensures yes { result ≡ true → (state ≡ 1) ⊎ (state ≡ 3) }
    ensures no { result ≡ false → (state ≡ 1) ⊎ (state ≡ 3) → ⊥ }
{
    state == 1 || state == 3
}

// The root of a slot, where the database may be opened.
fn root_in(slot: &[u8]) -> Option<Root>
    requires { length slot.now ≡ 1024 }
    ensures found { IfSome result (λ root. IsOpenedRoot slot.now root) }
    ensures none { IfNone result ((root : _) → IsOpenedRoot slot.now root → ⊥) }
{
    let Ok(root) = read_root(slot) else {
        return None;
    };
    let may = is_opened(root.state);
    if may { Some(root) } else { None }
}

/// The root of a database that may be opened. Any other is refused: an unfinished restore or roll-forward, or a slot that is no root.
pub fn opened_root<D: Disk>(disk: &mut D) -> Result<Root, Fault>
    ensures reads { OnlyReads (D.view disk.old) (D.view disk.new) }
    ensures failed { IsErrOf result Fault.Failed
        → Rose (D.view disk.old).faults (D.view disk.new).faults }
    ensures allowed { IfOk result IsAllowed }
    ensures found { IfOk result (λ root. IsTrue (D.view disk.old).tells
        → IsOpenedRoot ((D.view disk.old).content root_named 0) root) }
    ensures bad { (file : File) (slot : ℕ) → IsErrOf result (Fault.Bad file slot)
        → IsTrue (D.view disk.old).tells → (root : _)
        → IsOpenedRoot ((D.view disk.old).content root_named 0) root → ⊥ }
{
    let file = root_file();
    let mut slot = [0; 1024];
    disk.read(file, 0, &mut slot)?;
    match root_in(&slot) {
        Some(root) => Ok(root),
        None => Err(Fault::Bad(file, 0)),
    }
}

// How many entries a member's transaction has, where it has one.
fn count_of<D: Disk>(disk: &mut D, member: u32, number: u64) -> Result<u32, Failed>
    ensures reads { OnlyReads (D.view disk.old) (D.view disk.new) }
    ensures failed { IsErr result → Rose (D.view disk.old).faults (D.view disk.new).faults }
    ensures count { IfOk result (λ count. IsTrue (D.view disk.old).tells → 1 ≤ number
        → HasCount (D.view disk.old).content member (record { number = number }) count) }
    ensures none { IfOk result (λ count. number ≡ 0 → count ≡ 0) }
{
    if number == 0 {
        return Ok(0);
    }
    count_entries(disk, member, Tsn { number })
}

/// How many entries the transactions of these numbers have, the first member's in place 0. It reads one slot more than it counts of each, at most.
pub fn count_all<D: Disk>(disk: &mut D, numbers: &[u64; 16]) -> Result<[u32; 16], Fault>
    ensures reads { OnlyReads (D.view disk.old) (D.view disk.new) }
    ensures failed { IsErrOf result Fault.Failed
        → Rose (D.view disk.old).faults (D.view disk.new).faults }
    ensures counts { IfOk result (λ counts. IsTrue (D.view disk.old).tells
        → AreCounted (D.view disk.old).content numbers.now counts) }
    ensures bad { (file : File) (slot : ℕ) → IsErrOf result (Fault.Bad file slot) → ⊥ }
{
    let mut counts = [0; 16];
    for place in 0..16 {
        counts[place] = count_of(disk, place as u32 + 1, numbers[place])?;
    }
    Ok(counts)
}
