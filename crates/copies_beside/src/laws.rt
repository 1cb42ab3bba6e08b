// What a store shows behind calls that write a backup, and what its own calls leave of backups.
ghost use Rattle.std.specs.Prelude.{ℕ, IsTrue};
ghost use Rattle.backup_steps.specs.backup_making.Making.{file_of};
ghost use Rattle.backup_steps.specs.next_lines.partial_backup.Partial.{IsUntouched};
ghost use Rattle.backup_steps.specs.Beside.{IsBeside};
ghost use Rattle.line_store.specs.Calls.{Moves};
ghost use Rattle.line_store.specs.Shelves.{Shelf};
ghost use Rattle.disk_store.specs.OwnFiles.{WritesOwn};
ghost use Rattle.disk_store.specs.Seats.{stand_at};
ghost use Rattle.disk_store.specs.Shown.{DoesOn, Shown};
ghost use Rattle.copies_beside.specs.Moved.{moved_on};

use disk_store::Held;
use rdb_outside::Disk;

/// Calls that write a backup alone, as a step of its copying does, keep each shelf that a store shows, with the clock moved on.
pub fn a_store_is_shown_beside<D: Disk>(before: &D, after: &D, held: &Held)
    ensures shown { (number : ℕ) → IsBeside (file_of number) (D.view before.now) (D.view after.now)
        → (h : Shelf) → Shown (D.view before.now) held.now h
        → Shown (D.view after.now) held.now (moved_on (D.view after.now) held.now h) }

    // In the words of the trait of stores it is a step of any session that changes nothing; what a crash leaves meanwhile stands, and can be opened.
    ensures does { (number session : ℕ) → IsBeside (file_of number) (D.view before.now) (D.view after.now)
        → DoesOn session (stand_at held.now.members session)
        (λ h k. Moves session (h.seat session) h k)
        (D.view before.now) held.now (D.view after.now) held.now }
{}

/// Behind a call of the store, which writes one slot of the database's own files at most, the file of each backup is as it was.
pub fn a_store_leaves_backups<D: Disk>(before: &D, after: &D)
    ensures { IsTrue (D.view before.now).tells → WritesOwn (D.view before.now) (D.view after.now)
        → (number : ℕ) → IsUntouched (file_of number) (D.view before.now) (D.view after.now) }
{}
