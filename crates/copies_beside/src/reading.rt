// What a store gives to the steps of a copying.
ghost use Rattle.std.specs.Prelude.{◌≡◌, ℕ, Some, slice_get};
ghost use Rattle.line_store.specs.Shelves.{Shelf, seen_by};
ghost use Rattle.backup_steps.specs.next_lines.Next.{AreClasses};
ghost use Rattle.disk_store.specs.declared.member.Member.{Member as MemberOf};
ghost use Rattle.disk_store.specs.declared.member.MemberStage.TheVariants as stage;
ghost use Rattle.disk_store.specs.Shown.{Shown};
ghost use Rattle.copies_beside.specs.Read.{tables_of, IsReadBy};

use disk_store::Held;
use rdb_outside::Disk;

/// At each moment a session that reads is a reader of the lines at its start, which the store's tables have, and by the tables pages have the classes of their areas: as steps of a copying ask it.
pub fn a_reader_may_be_copied<D: Disk>(disk: &D, held: &Held)
    ensures reads { (h : Shelf) (shown : Shown (D.view disk.now) held.now h) → (s : ℕ) (m : MemberOf)
        → slice_get held.now.members s ≡ Some m → m.stage ≡ stage.Reading
        → IsReadBy (D.view disk.now) shown.ledger held.now m (seen_by s h) }
    ensures classes { (h : Shelf) (shown : Shown (D.view disk.now) held.now h)
        → AreClasses (tables_of held.now.tables) shown.tables.classes }
{}
