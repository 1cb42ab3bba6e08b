// Causes of refusals at a limit.
ghost use Rattle.std.specs.Prelude.{◌≡◌, ℕ, true, List, is_some};
ghost use Rattle.rdo_ast.specs.declared.reply.Reply.TheVariants.{AijFull, AreaFull, RujFull, SnapFull};
ghost use Rattle.rdb_account.specs.Lawful.{has_cause};
ghost use Rattle.rdb_account.specs.Places.{Opening, Place};
ghost use Rattle.line_view.specs.declared.writes.Write.{Write};
ghost use Rattle.line_store.specs.Calls.{MayStopChange, MayStopCommit};
ghost use Rattle.line_store.specs.Rooms.{IsFull};
ghost use Rattle.line_store.specs.Seats.{IsMember, IsWriting};
ghost use Rattle.line_store.specs.Shelves.{Shelf};
ghost use Rattle.line_store.specs.declared.answers.ChangeStop.TheVariants.{RujFull as UndoFull, SnapFull as SnapshotsFull};
ghost use Rattle.line_store.specs.declared.answers.CommitStop.TheVariants.{AijFull as JournalFull};
ghost use Rattle.store_counts.specs.Counts.{AreClaimed, IsCounted};

/// Where a store that is within the account's counts refuses at a limit, the account has the cause: for a session whose transaction is
/// open, and once EX was got on the line of each write that is to be laid.
pub fn limits_have_causes()
    ensures ruj { (o : Opening) (p : Place) (h : Shelf) (s : ℕ) (more : List Write) (limit : ℕ) → IsCounted o p h → is_some (p.transaction s) ≡ true → AreClaimed p s more → MayStopChange h s more (UndoFull limit) → has_cause o p s (RujFull limit) ≡ true }
    ensures snap { (o : Opening) (p : Place) (h : Shelf) (s : ℕ) (more : List Write) (limit : ℕ) → IsMember s → IsCounted o p h → AreClaimed p s more → MayStopChange h s more (SnapshotsFull limit) → has_cause o p s (SnapFull limit) ≡ true }
    ensures aij { (o : Opening) (p : Place) (h : Shelf) (s : ℕ) (limit : ℕ) → IsCounted o p h → is_some (p.transaction s) ≡ true → MayStopCommit h s (JournalFull limit) → has_cause o p s (AijFull limit) ≡ true }
    ensures area { (o : Opening) (p : Place) (h : Shelf) (s area limit : ℕ) → IsCounted o p h → is_some (p.transaction s) ≡ true → IsWriting (h.seat s) → IsFull h s area limit → has_cause o p s (AreaFull limit) ≡ true }
{}
