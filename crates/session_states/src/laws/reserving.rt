// What a START_TRANSACTION reserves is locked before it is said.
ghost use Rattle.std.specs.Prelude.{◌≡◌, ℕ, Bool, true, List, [], None};
ghost use Rattle.std.specs.List.{AllByRecursion};
ghost use Rattle.rdo_ast.specs.declared.reply.Standing.{Standing};
ghost use Rattle.rdo_ast.specs.declared.reply.Standing.TheVariants.{Closed};
ghost use Rattle.rdo_ast.specs.declared.syntax.Item.{Item};
ghost use Rattle.rdo_ast.specs.declared.syntax.Reservation.{Reservation};
ghost use Rattle.rdo_ast.specs.Tree.{said, start_read_write};
ghost use Rattle.rdo_ast.specs.Views.{uttered_of};
ghost use Rattle.lock_needs.specs.declared.need.Need.{Need as LockNeed};
ghost use Rattle.rdb_account.specs.Places.{Opening, Place};
ghost use Rattle.rdb_account.specs.AskedFor.{reservations_ask};
ghost use Rattle.line_view.specs.Held.{Held, knows};
ghost use Rattle.line_steps.specs.session_jobs.Jobs.{IsFound, WhereItAgrees};
ghost use Rattle.line_steps.specs.session_jobs.declared.jobs.Found.TheVariants.{Done};
ghost use Rattle.line_steps.specs.session_jobs.declared.jobs.TxRecord.{TxRecord};
ghost use Rattle.line_steps.specs.lock_ties.Ties.{needs_at};
ghost use Rattle.line_steps.specs.Right.{Ground};
ghost use Rattle.session_states.specs.declared.stage.Work.TheVariants.{Out};
ghost use Rattle.session_states.specs.declared.stage.Laying.TheVariants.{Claiming};
ghost use Rattle.session_states.specs.declared.stage.Stage.TheVariants.{Working, Reserving, Saying};
ghost use Rattle.session_states.specs.declared.stage.Phase.TheVariants.{Writing};
ghost use Rattle.session_states.specs.Fits.{AreGot};
ghost use Rattle.session_states.specs.Locks.{lock_of};
ghost use Rattle.session_states.specs.Shared.{Shared};
ghost use Rattle.session_states.specs.States.{session, writer};
ghost use Rattle.session_states.specs.Steps.{Finds, Step};

use line_steps::Statements;

/// A START_TRANSACTION whose job came back with a record may want locks that its reservations ask for, over all that agrees with what the
/// session knows, in any order. They are wanted, got or refused as the lock of any stage; once the stage wants none, all of them are got,
/// and the record is said.
pub fn reservations_are_locked<S: Statements>()
    ensures reserves { (s : ℕ) (c : Shared) (left : List Item) (total : ℕ) (known : Held) (spoken waits : Bool) (item : Item) (r : TxRecord) (wait : Bool) (rs : List Reservation) (locks : List LockNeed) → uttered_of item ≡ said (start_read_write wait rs) → IsFound S.stands c.word Closed (uttered_of item) (knows known) (Done r) → AllByRecursion (λ n. WhereItAgrees S.stands (knows known) (λ t. reservations_ask t n rs ≡ true)) locks → Step S.stands s c (session left total (Writing (writer Closed known spoken waits (Working item Out)))) c (session left total (Writing (writer Closed known spoken waits (Reserving item r locks 0)))) [] }
    ensures reserved { (s : ℕ) (c : Shared) (left : List Item) (total : ℕ) (standing : Standing) (known : Held) (spoken waits : Bool) (item : Item) (r : TxRecord) (locks : List LockNeed) (place : ℕ) → lock_of (Reserving item r locks place) ≡ None → Step S.stands s c (session left total (Writing (writer standing known spoken waits (Reserving item r locks place)))) c (session left total (Writing (writer standing known spoken waits (Saying item r (Claiming 0))))) [] }
    ensures all_got { (s : ℕ) (c : Shared) (left : List Item) (total : ℕ) (standing : Standing) (known : Held) (spoken waits : Bool) (item : Item) (r : TxRecord) (locks : List LockNeed) (place : ℕ) → lock_of (Reserving item r locks place) ≡ None → (o : Opening) (p : Place) (g : Ground) → Finds S.stands o p g c s (session left total (Writing (writer standing known spoken waits (Reserving item r locks place)))) → AreGot (needs_at p s) locks }
{}
