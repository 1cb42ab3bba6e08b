// A database is opened as a store of lines.
ghost use Rattle.std.specs.Prelude.{◌≡◌, ◌≢◌, ◌+◌, ◌^◌, ◌≤◌, ◌<◌, ℕ, true, false, IfOk, IsErrOf, IsTrue};
ghost use Rattle.rdb_types.specs.declared.file.FileId.{FileId as File};
ghost use Rattle.rdb_outside.specs.Causes.{Rose};
ghost use Rattle.rdb_outside.specs.Disk.{LeavesOnly};
ghost use Rattle.root_file.specs.declared.Root.{Root};
ghost use Rattle.root_file.specs.Root.{IsRoot};
ghost use Rattle.new_database.specs.Maker.{root_file as root_named};
ghost use Rattle.line_view.specs.Knowledge.{Lines};
ghost use Rattle.line_store.specs.Seats.{outside};
ghost use Rattle.stable_lines.specs.Journal.{Journal};
ghost use Rattle.stable_lines.specs.Kept.{Kept};
ghost use Rattle.line_moves.specs.Classes.{IsClassed};
ghost use Rattle.disk_store.specs.Seats.{stand_at};
ghost use Rattle.database_opening.specs.Others.{IsOther, KeepsFile};
ghost use Rattle.journal_anew.specs.Anew.{IsApart};
ghost use Rattle.opened_store.specs.Opened.{AreUsedUp, BeginsFrom, IsLeft};

use crate::tables::read_tables;
use crate::using::open_in_use;
use disk_store::{Held, Numbers};
use line_moves::aij_file;
use line_opening::{NextGroup, OpeningFault};
use member_steps::begin_members;
use rdb_outside::Disk;
use rdb_types::NoMemory;
use std::alloc::Global;

const LAST_GROUP: u64 = 4_611_686_018_427_387_904;

// Whether there are numbers for as many groups as the journal has room for.
fn has_numbers(slots: u32, next: NextGroup) -> bool
    ensures yes { result ≡ true → next.number + slots ≤ 2 ^ 62 + next.slot }
    ensures no { result ≡ false → 2 ^ 62 + next.slot < next.number + slots }
{
    next.number.saturating_add(u64::from(slots)) <= LAST_GROUP + u64::from(next.slot)
}

/// Opens a database, whatever a crash left of it: what an earlier run left open is undone, one that was restored is taken into use, the ceiling of the transaction numbers is raised, and the tables of pages are read. Behind it nobody has a transaction. It takes the memory of the store, which doesn't grow with the lines.
pub fn open<D: Disk>(alloc: Global, disk: &mut D) -> Result<Held, OpeningFault>
    ensures told { (D.view disk.new).tells ≡ (D.view disk.old).tells }
    ensures no_fewer { (D.view disk.old).faults ≤ (D.view disk.new).faults }
    ensures failed { IsErrOf result OpeningFault.Failed
        → Rose (D.view disk.old).faults (D.view disk.new).faults }

    // A kept image is refused only where its numbers are used up.
    ensures bad { (file : File) (slot : ℕ) → IsErrOf result (OpeningFault.Bad file slot)
        → IsTrue (D.view disk.old).tells
        → (classes : ℕ → ℕ) (lines : Lines) (journal : Journal)
        → (kept : Kept classes lines journal (D.view disk.old).content)
        → AreUsedUp journal kept.root }
    ensures outside { IfOk result (λ held. (s : ℕ) → stand_at held.members s ≡ outside) }

    // The store shows the lines that the image stands for, where pages have the classes of their areas.
    ensures begins { IfOk result (λ held. IsTrue (D.view disk.old).tells
        → (classes : ℕ → ℕ) (lines : Lines) (journal : Journal)
        → Kept classes lines journal (D.view disk.old).content
        → (by_area : ℕ → ℕ) → IsClassed by_area (D.view disk.old).content
        → BeginsFrom (D.view disk.old).content lines journal (D.view disk.new) held) }

    // Whatever it answers, a crash at any moment of it leaves what one before might have left, or an image of these lines, before its journal is the one in use or behind that.
    ensures stands { IsTrue (D.view disk.old).tells
        → (classes : ℕ → ℕ) (lines : Lines) (journal : Journal)
        → (kept : Kept classes lines journal (D.view disk.old).content)
        → LeavesOnly (D.view disk.old) (D.view disk.new)
        (IsLeft (D.view disk.old) classes lines journal kept.root) }

    // Whatever it answers, backups and copies of the journal stay as they were, at every moment.
    ensures beside { IsTrue (D.view disk.old).tells → (file : File) → IsOther file → IsApart file
        → KeepsFile file (D.view disk.old) (D.view disk.new) }

    // A restored database is in use behind it: the root that reads give doesn't say any more that it is one.
    ensures used { IfOk result (λ held. IsTrue (D.view disk.old).tells → (root : Root)
        → IsRoot ((D.view disk.new).content root_named 0) root → root.state ≢ 3) }
{
    let start = open_in_use(disk)?;
    let limits = start.root.limits;
    if !has_numbers(limits.slots, start.next) {
        return Err(OpeningFault::Bad(aij_file(), 0));
    }
    let root = begin_members(disk, start.next_tsn)?;
    let tables = read_tables(alloc, disk, limits.pages)?;
    let numbers = Numbers {
        next: start.next_tsn,
        ceiling: root.ceiling,
        written: root.ceiling,
        applied: root.applied,
    };
    match Held::new(alloc, limits, numbers, start.next, tables) {
        Ok(held) => Ok(held),
        Err(NoMemory {}) => Err(OpeningFault::NoMemory),
    }
}
