// What a step of one session leaves of all of them.
ghost use Rattle.std.specs.Prelude.{◌≡◌, ◌++◌, ℕ, suc, Bool, false, List, [], Some, slice_get, slice_set};
ghost use Rattle.rdo_ast.specs.declared.reply.Standing.{Standing};
ghost use Rattle.rdo_ast.specs.declared.syntax.Item.{Item};
ghost use Rattle.line_view.specs.Held.{Held};
ghost use Rattle.line_store.specs.Shelves.{IsAlone};
ghost use Rattle.line_steps.specs.Images.{journal_node};
ghost use Rattle.lock_needs.specs.Waits.{converts_at};
ghost use Rattle.lock_tree_laws.specs.Wanted.{needs_of};
ghost use Rattle.journal_waits.specs.Holders.{HoldersRest, OthersKeepTo};
ghost use Rattle.rdb_account.specs.Events.{Event};
ghost use Rattle.rdb_account.specs.Places.{Opening, place};
ghost use Rattle.session_states.specs.declared.stage.End.TheVariants.{Ready};
ghost use Rattle.session_states.specs.declared.stage.Stage.{Stage};
ghost use Rattle.session_states.specs.declared.stage.Stage.TheVariants.{Ending};
ghost use Rattle.session_states.specs.declared.stage.Phase.TheVariants.{Writing};
ghost use Rattle.session_states.specs.declared.stage.Member.{Member};
ghost use Rattle.session_states.specs.Locks.{has_journal};
ghost use Rattle.session_states.specs.States.{writer, session};
ghost use Rattle.session_states.specs.Shared.{Shared};
ghost use Rattle.session_states.specs.Steps.{AreAt, Finds, Step, Fall};
ghost use Rattle.session_states.specs.Kept.{AreKept, IsFresh, IsOpened};

use line_steps::Statements;

/// What is always true of all sessions is true at the opening. It gives what each of them finds where nobody is dead, and a step of one of them keeps it. Steps of
/// one session in turn, in which nobody dies, are one step. Deaths and recoveries keep it too, whoever is dead. Who is ready to commit is
/// alone in that. Who has the journal wants nothing until its locks are released, and all others have and want the journal for EX alone;
/// a session that has yet to get it hasn't got it: so its want is answered no deadlock (`journal_waits`).
pub fn sessions_are_kept<S: Statements>()
    ensures opened { (o : Opening) (c : Shared) (members : List Member) → IsOpened S.stands o c → ((i : ℕ) (m : Member) → slice_get members i ≡ Some m → IsFresh o c (suc i) m) → AreKept S.stands o c members [] }
    ensures finds { (o : Opening) (c : Shared) (members : List Member) (events : List Event) (i : ℕ) (m : Member) → c.dead ≡ 0 → (k : AreKept S.stands o c members events) → slice_get members i ≡ Some m → Finds S.stands o (place o events) k.ground c (suc i) m }
    ensures kept { (o : Opening) (c d : Shared) (members : List Member) (events es : List Event) (i : ℕ) (m n : Member) → c.dead ≡ 0 → AreKept S.stands o c members events → slice_get members i ≡ Some m → Step S.stands (suc i) c m d n es → AreKept S.stands o d (slice_set members i n) (events ++ es) }
    ensures in_turn { (s : ℕ) (c d e : Shared) (m n k : Member) (es fs : List Event) → d.dead ≡ c.dead → AreAt e.shelf.clock.time es → Step S.stands s c m d n es → Step S.stands s d n e k fs → Step S.stands s c m e k (es ++ fs) }
    ensures fell { (o : Opening) (c d : Shared) (members : List Member) (events es : List Event) (i : ℕ) (m n : Member) → AreKept S.stands o c members events → slice_get members i ≡ Some m → Fall S.stands o (suc i) c m d n es → AreKept S.stands o d (slice_set members i n) (events ++ es) }
    ensures alone { (o : Opening) (c : Shared) (members : List Member) (events : List Event) (i : ℕ) (left : List Item) (total : ℕ) (standing : Standing) (known : Held) (spoken waits : Bool) → AreKept S.stands o c members events → slice_get members i ≡ Some (session left total (Writing (writer standing known spoken waits (Ending Ready)))) → IsAlone (suc i) c.shelf }
    ensures rests { (o : Opening) (c : Shared) (members : List Member) (events : List Event) (s : ℕ) → AreKept S.stands o c members events → HoldersRest c.locks s journal_node }
    ensures exclusive { (o : Opening) (c : Shared) (members : List Member) (events : List Event) (s : ℕ) → AreKept S.stands o c members events → OthersKeepTo c.locks s journal_node }
    ensures free { (o : Opening) (c : Shared) (members : List Member) (events : List Event) (i : ℕ) (left : List Item) (total : ℕ) (standing : Standing) (known : Held) (spoken waits : Bool) (stage : Stage) → AreKept S.stands o c members events → slice_get members i ≡ Some (session left total (Writing (writer standing known spoken waits stage))) → has_journal stage ≡ false → converts_at (needs_of c.locks (suc i)) journal_node ≡ false }
{}
