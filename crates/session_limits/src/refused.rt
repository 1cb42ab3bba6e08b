// A statement that the store refuses at a limit, and one that its record refuses.
ghost use Rattle.std.specs.Prelude.{◌≡◌, ◌∷◌, ℕ, Bool, true, false, List, [], None};
ghost use Rattle.rdo_ast.specs.declared.reply.Reply.TheVariants.{AijFull, AreaFull, RujFull, SnapFull};
ghost use Rattle.rdo_ast.specs.declared.reply.Standing.{Standing};
ghost use Rattle.rdo_ast.specs.declared.syntax.Item.{Item};
ghost use Rattle.rdo_ast.specs.Tree.{commit, said};
ghost use Rattle.rdo_ast.specs.Views.{uttered_of};
ghost use Rattle.rdb_account.specs.Events.{Said};
ghost use Rattle.rdb_account.specs.Lawful.{Replaces};
ghost use Rattle.rdb_account.specs.Places.{is_done};
ghost use Rattle.line_view.specs.Held.{Held, knows};
ghost use Rattle.line_view.specs.declared.need.Need.TheVariants.{Room as OfRoom};
ghost use Rattle.line_view.specs.declared.need.Room.{Room};
ghost use Rattle.line_store.specs.Calls.{MayStopChange, MayStopCommit};
ghost use Rattle.line_store.specs.Rooms.{IsFull};
ghost use Rattle.line_store.specs.Seats.{IsMember};
ghost use Rattle.line_store.specs.declared.answers.ChangeStop.TheVariants.{RujFull as UndoFull, SnapFull as SnapshotsFull};
ghost use Rattle.line_store.specs.declared.answers.CommitStop.TheVariants.{AijFull as JournalFull};
ghost use Rattle.session_jobs.specs.Jobs.{IsFound, WhereItAgrees};
ghost use Rattle.session_jobs.specs.declared.jobs.Found.TheVariants.{Done};
ghost use Rattle.session_jobs.specs.declared.jobs.TxRecord.{TxRecord};
ghost use Rattle.session_states.specs.declared.stage.Work.TheVariants.{Lacking, Out};
ghost use Rattle.session_states.specs.declared.stage.Laying.TheVariants.{Claiming};
ghost use Rattle.session_states.specs.declared.stage.End.TheVariants.{Preparing};
ghost use Rattle.session_states.specs.declared.stage.Stage.TheVariants.{Between, Ending, Saying, Working};
ghost use Rattle.session_states.specs.declared.stage.Phase.TheVariants.{Writing};
ghost use Rattle.session_states.specs.Locks.{lock_of};
ghost use Rattle.session_states.specs.Shared.{Shared};
ghost use Rattle.session_states.specs.States.{session, writer};
ghost use Rattle.session_states.specs.Steps.{Step};
ghost use Rattle.session_states.specs.Turns.{said_writer};
ghost use Rattle.session_limits.specs.Some.{WriteSome};

use session_jobs::Statements;

/// Where the store refuses to lay a record's writes at a limit, once all their lines are claimed, the statement is refused at that limit,
/// with its cause in the account, and its transaction goes on; so is a COMMIT that is to be prepared and for which the journal has no room, and a statement for which
/// no room is left in an area. The last one is so where, over all that agrees with what is known, the statement's work is reached: no
/// standing, name, reservation or type refuses it before.
pub fn limits_refuse<S: Statements>()
    ensures ruj_full { (s : ℕ) (c : Shared) (left : List Item) (total : ℕ) (standing : Standing) (known : Held) (waits : Bool) (item : Item) (r : TxRecord) (place limit : ℕ) → lock_of (Saying item r (Claiming place)) ≡ None → WriteSome r.writes → is_done r.reply ≡ true → MayStopChange c.shelf s r.writes (UndoFull limit) → Step S.stands s c (session left total (Writing (writer standing known true waits (Saying item r (Claiming place))))) c (session left total (Writing (writer standing known true waits Between))) (Said s (uttered_of item) [] (RujFull limit) ∷ []) }
    ensures snap_full { (s : ℕ) (c : Shared) (left : List Item) (total : ℕ) (standing : Standing) (known : Held) (waits : Bool) (item : Item) (r : TxRecord) (place limit : ℕ) → IsMember s → lock_of (Saying item r (Claiming place)) ≡ None → WriteSome r.writes → is_done r.reply ≡ true → MayStopChange c.shelf s r.writes (SnapshotsFull limit) → Step S.stands s c (session left total (Writing (writer standing known true waits (Saying item r (Claiming place))))) c (session left total (Writing (writer standing known true waits Between))) (Said s (uttered_of item) [] (SnapFull limit) ∷ []) }
    ensures aij_full { (s : ℕ) (c : Shared) (left : List Item) (total : ℕ) (standing : Standing) (known : Held) (waits : Bool) (limit : ℕ) → MayStopCommit c.shelf s (JournalFull limit) → Step S.stands s c (session left total (Writing (writer standing known true waits (Ending Preparing)))) c (session left total (Writing (writer standing known true waits Between))) (Said s (said commit) [] (AijFull limit) ∷ []) }
    ensures area_full { (s : ℕ) (c : Shared) (left : List Item) (total : ℕ) (standing : Standing) (known : Held) (waits : Bool) (item : Item) (room : Room) (limit : ℕ) → IsFull c.shelf s room.area limit → WhereItAgrees S.stands (knows known) (λ t. Replaces c.word standing t (uttered_of item) (AreaFull limit)) → Step S.stands s c (session left total (Writing (writer standing known true waits (Working item (Lacking (OfRoom room)))))) c (session left total (Writing (writer standing known true waits Between))) (Said s (uttered_of item) [] (AreaFull limit) ∷ []) }
{}

/// A statement whose record isn't done leaves the tables as they are. So it is said at once, whatever its record would write.
pub fn refusals_write_nothing<S: Statements>()
    ensures { (s : ℕ) (c : Shared) (left : List Item) (total : ℕ) (standing : Standing) (known : Held) (waits : Bool) (item : Item) (r : TxRecord) → is_done r.reply ≡ false → IsFound S.stands c.word standing (uttered_of item) (knows known) (Done r) → Step S.stands s c (session left total (Writing (writer standing known true waits (Working item Out)))) c (session left total (Writing (said_writer r known waits))) (Said s (uttered_of item) r.choices r.reply ∷ []) }
{}
