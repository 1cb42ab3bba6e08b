// A record's writes are laid by the store, and it is said.
ghost use Rattle.std.specs.Prelude.{◌≡◌, ◌∷◌, ◌||◌, ℕ, Bool, true, List, [], None};
ghost use Rattle.rdo_ast.specs.declared.reply.Standing.{Standing};
ghost use Rattle.rdo_ast.specs.declared.syntax.Item.{Item};
ghost use Rattle.rdo_ast.specs.Views.{uttered_of};
ghost use Rattle.rdb_account.specs.Events.{Said};
ghost use Rattle.rdb_account.specs.Places.{is_done};
ghost use Rattle.line_view.specs.Held.{Held};
ghost use Rattle.line_store.specs.Seats.{IsMember, failed_at};
ghost use Rattle.line_store.specs.Shelves.{Shelf};
ghost use Rattle.line_store.specs.Calls.{Changes, IsDone, Moves};
ghost use Rattle.line_steps.specs.session_jobs.declared.jobs.TxRecord.{TxRecord};
ghost use Rattle.session_states.specs.declared.stage.Laying.TheVariants.{Claiming, Changing, Broken};
ghost use Rattle.session_states.specs.declared.stage.Stage.TheVariants.{Saying};
ghost use Rattle.session_states.specs.declared.stage.Phase.TheVariants.{Writing};
ghost use Rattle.session_states.specs.Locks.{lock_of};
ghost use Rattle.session_states.specs.Turns.{said_writer};
ghost use Rattle.session_states.specs.States.{writer, session};
ghost use Rattle.session_states.specs.Shared.{Shared, with_shelf};
ghost use Rattle.session_states.specs.Fits.{Follows};
ghost use Rattle.session_states.specs.Steps.{Step};

use line_steps::Statements;

/// Once the lines of all its writes are locked a record is laid, and what the session knows follows the writes. It is said when the store
/// has laid it, and at once where it writes nothing. A START_TRANSACTION that isn't done is said otherwise. Where a step of the store
/// fails as it lays them, the session can only die.
pub fn records_are_laid_and_said<S: Statements>()
    ensures laid { (s : ℕ) (c : Shared) (shelf : Shelf) (left : List Item) (total : ℕ) (standing : Standing) (known new : Held) (spoken waits : Bool) (item : Item) (r : TxRecord) (place : ℕ) → lock_of (Saying item r (Claiming place)) ≡ None → (spoken || is_done r.reply) ≡ true → IsMember s → Changes s r.writes c.shelf shelf → Follows r.writes known new → Step S.stands s c (session left total (Writing (writer standing known spoken waits (Saying item r (Claiming place))))) (with_shelf shelf c) (session left total (Writing (writer standing new spoken waits (Saying item r Changing)))) [] }
    ensures said { (s : ℕ) (c : Shared) (shelf : Shelf) (left : List Item) (total : ℕ) (standing : Standing) (known : Held) (spoken waits : Bool) (item : Item) (r : TxRecord) → IsDone s c.shelf shelf → Step S.stands s c (session left total (Writing (writer standing known spoken waits (Saying item r Changing)))) (with_shelf shelf c) (session left total (Writing (said_writer r known waits))) (Said s (uttered_of item) r.choices r.reply ∷ []) }
    ensures broken { (s : ℕ) (c : Shared) (shelf : Shelf) (left : List Item) (total : ℕ) (standing : Standing) (known : Held) (spoken waits : Bool) (item : Item) (r : TxRecord) → Moves s (failed_at (c.shelf.seat s)) c.shelf shelf → Step S.stands s c (session left total (Writing (writer standing known spoken waits (Saying item r Changing)))) (with_shelf shelf c) (session left total (Writing (writer standing known spoken waits (Saying item r Broken)))) [] }
    ensures said_at_once { (s : ℕ) (c : Shared) (left : List Item) (total : ℕ) (standing : Standing) (known : Held) (spoken waits : Bool) (item : Item) (r : TxRecord) (place : ℕ) → (spoken || is_done r.reply) ≡ true → r.writes ≡ [] → Step S.stands s c (session left total (Writing (writer standing known spoken waits (Saying item r (Claiming place))))) c (session left total (Writing (said_writer r known waits))) (Said s (uttered_of item) r.choices r.reply ∷ []) }
{}
