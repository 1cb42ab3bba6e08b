// What the maps of lines stand for that a crash may leave.
ghost use Rattle.std.specs.Prelude.{◌≡◌, ◌≤◌, ◌++◌, ◌⊎◌, ℕ, true, List, length, Some, slice_get};
ghost use Rattle.line_view.specs.Knowledge.{Lines};
ghost use Rattle.rdb_account.specs.Events.{Event};
ghost use Rattle.rdb_account.specs.Places.{Commit, Opening, Place, place};
ghost use Rattle.line_history.specs.kept_apart.Guards.{may_write};
ghost use Rattle.line_store.specs.Shelves.{Shelf};
ghost use Rattle.line_store.specs.Calls.{Lasts, MayStand};
ghost use Rattle.lock_ties.specs.Ties.{needs_at};
ghost use Rattle.line_steps.specs.Images.{AreLeft, IsNow, IsStored, journal_node};
ghost use Rattle.line_steps.specs.Right.{Ground, IsFit};

use line_history::Statements;
use line_store::LineStore;

/// Each map of lines that a crash since a commit may leave stands for the tables of that commit, of a later one, or of the one in
/// flight, and a store can be opened from each image. It stays so behind events that commit nothing, and behind a call of a store with the events behind it, from a shelf that
/// was shown to one that is: what may stand there is the committed lines, or those with the writes of who has the journal.
pub fn crashes_leave_commits<S: Statements, L: LineStore>()
    ensures now { (o : Opening) (p : Place) (g : Ground) (h : Shelf) (lines : Lines) → IsFit S.stands p g → IsStored S.stands o p g h → MayStand h lines → IsNow S.stands o p lines }
    ensures events { (o : Opening) (events es : List Event) (store : L) (time : ℕ) → (place o (events ++ es)).commits ≡ (place o events).commits → AreLeft S.stands o events (L.sight store).left (L.sight store).opens time → AreLeft S.stands o (events ++ es) (L.sight store).left (L.sight store).opens time }
    ensures call { (o : Opening) (events es : List Event) (old new : L) (h g : Shelf) → (L.sight new).shows g → Lasts (L.sight old).left (L.sight new).left h g → ((t : ℕ) → t ≤ h.clock.time → (L.sight old).opens t → (L.sight new).opens t) → h.clock.time ≤ g.clock.time → ((lines : Lines) → MayStand h lines → IsNow S.stands o (place o events) lines) → ((lines : Lines) → MayStand g lines → IsNow S.stands o (place o (events ++ es)) lines) → ((k : ℕ) (c : Commit) → slice_get (place o (events ++ es)).commits k ≡ Some c → (slice_get (place o events).commits k ≡ Some c) ⊎ (c.moment ≡ g.clock.time)) → length (place o events).commits ≤ length (place o (events ++ es)).commits → AreLeft S.stands o events (L.sight old).left (L.sight old).opens h.clock.time → AreLeft S.stands o (events ++ es) (L.sight new).left (L.sight new).opens g.clock.time }
{}

/// At most one session has the journal.
pub fn one_commit_is_in_flight<S: Statements>()
    ensures { (p : Place) (g : Ground) → IsFit S.stands p g → (a b : ℕ) → may_write (needs_at p a) journal_node ≡ true → may_write (needs_at p b) journal_node ≡ true → a ≡ b }
{}
