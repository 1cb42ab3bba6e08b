// A statement is refused by a lock or for want of memory; and a START_TRANSACTION, whose refusal leaves no transaction.
ghost use Rattle.std.specs.Prelude.{◌≡◌, ◌∷◌, ◌++◌, ℕ, Bool, true, false, List, [], Some};
ghost use Rattle.rdo_ast.specs.declared.reply.Standing.{Standing};
ghost use Rattle.rdo_ast.specs.declared.reply.Reply.TheVariants.{LockConflict, Deadlock as CyclicWait, NoMemory};
ghost use Rattle.rdo_ast.specs.declared.syntax.Item.{Item};
ghost use Rattle.rdo_ast.specs.Tree.{Uttered};
ghost use Rattle.rdo_ast.specs.Views.{uttered_of};
ghost use Rattle.lock_needs.specs.declared.need.Need.{Need as LockNeed};
ghost use Rattle.lock_tree_laws.specs.declared.answer.Want.TheVariants.{Conflict, Deadlock};
ghost use Rattle.lock_tree_laws.specs.Forest.{State};
ghost use Rattle.lock_tree_laws.specs.Wanted.{Answered, needs_of};
ghost use Rattle.rdb_account.specs.Events.{Said, RolledBack};
ghost use Rattle.rdb_account.specs.Places.{is_done};
ghost use Rattle.rdb_account.specs.Legal.{ends_by};
ghost use Rattle.line_view.specs.Held.{Held};
ghost use Rattle.line_store.specs.Seats.{rolled_back};
ghost use Rattle.line_store.specs.Shelves.{Shelf};
ghost use Rattle.line_store.specs.Calls.{Moves};
ghost use Rattle.line_steps.specs.lock_ties.Ties.{IsCall, wanted_at};
ghost use Rattle.line_steps.specs.session_jobs.declared.jobs.TxRecord.{TxRecord};
ghost use Rattle.session_states.specs.declared.stage.Laying.TheVariants.{Claiming};
ghost use Rattle.session_states.specs.declared.stage.Stage.{Stage};
ghost use Rattle.session_states.specs.declared.stage.Stage.TheVariants.{Between, Saying};
ghost use Rattle.session_states.specs.declared.stage.Phase.TheVariants.{Closing, Writing};
ghost use Rattle.session_states.specs.Locks.{lock_of};
ghost use Rattle.session_states.specs.States.{item_of, is_at_rest, writer, session};
ghost use Rattle.session_states.specs.Shared.{Shared, with_locks, with_both, RestsWith};
ghost use Rattle.session_states.specs.Steps.{Step};

use line_steps::Statements;

/// Where the tree refuses the lock that a statement's stage wants, its askings are followed by the statement's refusal, which has its
/// cause, and the transaction goes on; or by want of memory for that reply. So it is once something was said in it. A COMMIT isn't refused by
/// a lock.
pub fn locks_are_refused<S: Statements>()
    ensures conflict { (s : ℕ) (c : Shared) (locks : State) (left : List Item) (total : ℕ) (standing : Standing) (known : Held) (waits : Bool) (stage : Stage) (n : LockNeed) (item : Item) (t : ℕ) → lock_of stage ≡ Some n → item_of stage ≡ Some (uttered_of item) → ends_by (uttered_of item) ≡ false → (call : IsCall s n c.locks locks) → Answered (needs_of c.locks s) locks s n waits (Conflict t) → Step S.stands s c (session left total (Writing (writer standing known true waits stage))) (with_locks locks c) (session left total (Writing (writer standing known true waits Between))) (wanted_at s n call.asks.nodes ++ Said s (uttered_of item) [] (LockConflict t) ∷ []) }
    ensures deadlock { (s : ℕ) (c : Shared) (locks : State) (left : List Item) (total : ℕ) (standing : Standing) (known : Held) (waits : Bool) (stage : Stage) (n : LockNeed) (item : Item) (cycle : List ℕ) → lock_of stage ≡ Some n → item_of stage ≡ Some (uttered_of item) → ends_by (uttered_of item) ≡ false → (call : IsCall s n c.locks locks) → Answered (needs_of c.locks s) locks s n waits (Deadlock cycle) → Step S.stands s c (session left total (Writing (writer standing known true waits stage))) (with_locks locks c) (session left total (Writing (writer standing known true waits Between))) (wanted_at s n call.asks.nodes ++ Said s (uttered_of item) [] (CyclicWait cycle) ∷ []) }
    ensures conflict_forgone { (s : ℕ) (c : Shared) (locks : State) (left : List Item) (total : ℕ) (standing : Standing) (known : Held) (waits : Bool) (stage : Stage) (n : LockNeed) (item : Uttered) (t : ℕ) → lock_of stage ≡ Some n → item_of stage ≡ Some item → ends_by item ≡ false → (call : IsCall s n c.locks locks) → Answered (needs_of c.locks s) locks s n waits (Conflict t) → Step S.stands s c (session left total (Writing (writer standing known true waits stage))) (with_locks locks c) (session left total (Writing (writer standing known true waits Between))) (wanted_at s n call.asks.nodes ++ Said s item [] NoMemory ∷ []) }
    ensures deadlock_forgone { (s : ℕ) (c : Shared) (locks : State) (left : List Item) (total : ℕ) (standing : Standing) (known : Held) (wait : Bool) (stage : Stage) (n : LockNeed) (item : Uttered) (cycle : List ℕ) (waits : Bool) → lock_of stage ≡ Some n → item_of stage ≡ Some item → ends_by item ≡ false → (call : IsCall s n c.locks locks) → Answered (needs_of c.locks s) locks s n wait (Deadlock cycle) → Step S.stands s c (session left total (Writing (writer standing known true waits stage))) (with_locks locks c) (session left total (Writing (writer standing known true waits Between))) (wanted_at s n call.asks.nodes ++ Said s item [] NoMemory ∷ []) }
{}

/// Where no memory is found the statement under way is refused, its want ends, and the transaction goes on. So it is once something was
/// said in it, and for a COMMIT that isn't prepared yet.
pub fn memory_is_wanting<S: Statements>()
    ensures { (s : ℕ) (c : Shared) (locks : State) (left : List Item) (total : ℕ) (standing : Standing) (known : Held) (waits : Bool) (stage : Stage) (item : Uttered) → is_at_rest stage ≡ true → item_of stage ≡ Some item → RestsWith s (needs_of c.locks s) c.locks locks → Step S.stands s c (session left total (Writing (writer standing known true waits stage))) (with_locks locks c) (session left total (Writing (writer standing known true waits Between))) (Said s item [] NoMemory ∷ []) }
{}

/// A START_TRANSACTION that isn't done ends its transaction in the same step: as its record says, or refused by a lock or for want of
/// memory. All locks are released and the store is told to undo, though nothing was written.
pub fn starts_are_refused<S: Statements>()
    ensures answered { (s : ℕ) (c : Shared) (shelf : Shelf) (locks : State) (left : List Item) (total : ℕ) (standing : Standing) (known : Held) (waits : Bool) (item : Item) (r : TxRecord) (place : ℕ) → is_done r.reply ≡ false → Moves s (rolled_back (c.shelf.seat s)) c.shelf shelf → RestsWith s [] c.locks locks → Step S.stands s c (session left total (Writing (writer standing known false waits (Saying item r (Claiming place))))) (with_both shelf locks c) (session left total Closing) (Said s (uttered_of item) r.choices r.reply ∷ RolledBack s ∷ []) }
    ensures conflict { (s : ℕ) (c : Shared) (shelf : Shelf) (mid locks : State) (left : List Item) (total : ℕ) (standing : Standing) (known : Held) (waits : Bool) (stage : Stage) (n : LockNeed) (item : Item) (t : ℕ) → lock_of stage ≡ Some n → item_of stage ≡ Some (uttered_of item) → ends_by (uttered_of item) ≡ false → (call : IsCall s n c.locks mid) → Answered (needs_of c.locks s) mid s n waits (Conflict t) → Moves s (rolled_back (c.shelf.seat s)) c.shelf shelf → RestsWith s [] mid locks → Step S.stands s c (session left total (Writing (writer standing known false waits stage))) (with_both shelf locks c) (session left total Closing) (wanted_at s n call.asks.nodes ++ Said s (uttered_of item) [] (LockConflict t) ∷ RolledBack s ∷ []) }
    ensures deadlock { (s : ℕ) (c : Shared) (shelf : Shelf) (mid locks : State) (left : List Item) (total : ℕ) (standing : Standing) (known : Held) (waits : Bool) (stage : Stage) (n : LockNeed) (item : Item) (cycle : List ℕ) → lock_of stage ≡ Some n → item_of stage ≡ Some (uttered_of item) → ends_by (uttered_of item) ≡ false → (call : IsCall s n c.locks mid) → Answered (needs_of c.locks s) mid s n waits (Deadlock cycle) → Moves s (rolled_back (c.shelf.seat s)) c.shelf shelf → RestsWith s [] mid locks → Step S.stands s c (session left total (Writing (writer standing known false waits stage))) (with_both shelf locks c) (session left total Closing) (wanted_at s n call.asks.nodes ++ Said s (uttered_of item) [] (CyclicWait cycle) ∷ RolledBack s ∷ []) }
    ensures conflict_forgone { (s : ℕ) (c : Shared) (shelf : Shelf) (mid locks : State) (left : List Item) (total : ℕ) (standing : Standing) (known : Held) (waits : Bool) (stage : Stage) (n : LockNeed) (item : Uttered) (t : ℕ) → lock_of stage ≡ Some n → item_of stage ≡ Some item → ends_by item ≡ false → (call : IsCall s n c.locks mid) → Answered (needs_of c.locks s) mid s n waits (Conflict t) → Moves s (rolled_back (c.shelf.seat s)) c.shelf shelf → RestsWith s [] mid locks → Step S.stands s c (session left total (Writing (writer standing known false waits stage))) (with_both shelf locks c) (session left total Closing) (wanted_at s n call.asks.nodes ++ Said s item [] NoMemory ∷ RolledBack s ∷ []) }
    ensures deadlock_forgone { (s : ℕ) (c : Shared) (shelf : Shelf) (mid locks : State) (left : List Item) (total : ℕ) (standing : Standing) (known : Held) (waits : Bool) (stage : Stage) (n : LockNeed) (item : Uttered) (cycle : List ℕ) → lock_of stage ≡ Some n → item_of stage ≡ Some item → ends_by item ≡ false → (call : IsCall s n c.locks mid) → Answered (needs_of c.locks s) mid s n waits (Deadlock cycle) → Moves s (rolled_back (c.shelf.seat s)) c.shelf shelf → RestsWith s [] mid locks → Step S.stands s c (session left total (Writing (writer standing known false waits stage))) (with_both shelf locks c) (session left total Closing) (wanted_at s n call.asks.nodes ++ Said s item [] NoMemory ∷ RolledBack s ∷ []) }
    ensures forgone { (s : ℕ) (c : Shared) (shelf : Shelf) (locks : State) (left : List Item) (total : ℕ) (standing : Standing) (known : Held) (waits : Bool) (stage : Stage) (item : Uttered) → is_at_rest stage ≡ true → item_of stage ≡ Some item → Moves s (rolled_back (c.shelf.seat s)) c.shelf shelf → RestsWith s [] c.locks locks → Step S.stands s c (session left total (Writing (writer standing known false waits stage))) (with_both shelf locks c) (session left total Closing) (Said s item [] NoMemory ∷ RolledBack s ∷ []) }
{}
