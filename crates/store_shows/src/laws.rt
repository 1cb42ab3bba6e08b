// What a crash may leave, by the ledger, and what the trait of stores says of it.
ghost use Rattle.std.specs.Prelude.{◌≡◌, ℕ, IsTrue};
ghost use Rattle.rdb_types.specs.declared.file.FileId.{FileId};
ghost use Rattle.rdb_outside.specs.Disk.{OnlyReads};
ghost use Rattle.line_view.specs.Knowledge.{Lines};
ghost use Rattle.line_moves.specs.Calls.{OnlyWrites};
ghost use Rattle.line_store.specs.Shelves.{Shelf};
ghost use Rattle.line_store.specs.Calls.{Lasts, MayStand};
ghost use Rattle.member_steps.specs.disk_seats.Ledgers.{Ledger};
ghost use Rattle.member_steps.specs.disk_seats.Members.{LedgerFacts};
ghost use Rattle.store_shows.specs.Shows.{Leaves, ShowsLines};

use rdb_outside::Disk;

/// What a crash may leave now stands for the committed lines, or for those with the writes of the commit that is under way.
pub fn a_crash_leaves_what_may_stand<D: Disk>(disk: &D)
    ensures { (ledger : Ledger) (shelf : Shelf) (lines : Lines) → LedgerFacts (D.view disk.now) ledger
        → ShowsLines (D.view disk.now) ledger shelf
        → Leaves (D.view disk.now) shelf.clock.time lines → MayStand shelf lines }
{}

/// What a crash since a moment might have left behind a call, it might have left before it, or it may stand before the call or behind it: so it is behind a call that writes one slot, one that only reads, and one that makes no device call.
pub fn what_may_stand_lasts<D: Disk>(before: &D, after: &D)
    requires { IsTrue (D.view before.now).tells }
    ensures writes { (was is : Ledger) (old new : Shelf) (file : FileId) (slot : ℕ)
        → LedgerFacts (D.view before.now) was → LedgerFacts (D.view after.now) is
        → ShowsLines (D.view before.now) was old → ShowsLines (D.view after.now) is new
        → OnlyWrites file slot (D.view before.now) (D.view after.now)
        → Lasts (Leaves (D.view before.now)) (Leaves (D.view after.now)) old new }
    ensures reads { (was : Ledger) (old new : Shelf) → LedgerFacts (D.view before.now) was
        → ShowsLines (D.view before.now) was old
        → OnlyReads (D.view before.now) (D.view after.now)
        → Lasts (Leaves (D.view before.now)) (Leaves (D.view after.now)) old new }
    ensures still { (old new : Shelf)
        → Lasts (Leaves (D.view before.now)) (Leaves (D.view before.now)) old new }
{}
