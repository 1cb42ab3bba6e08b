// The lock that a stage wants is asked for, and got.
ghost use Rattle.std.specs.Prelude.{◌≡◌, ◌∷◌, ◌++◌, ℕ, Bool, List, [], Some};
ghost use Rattle.rdo_ast.specs.declared.reply.Standing.{Standing};
ghost use Rattle.rdo_ast.specs.declared.syntax.Item.{Item};
ghost use Rattle.rdb_types.specs.declared.node.Node.{Node};
ghost use Rattle.vms_queues.specs.declared.lock_mode.Mode.{Mode};
ghost use Rattle.lock_needs.specs.declared.need.Need.{Need as LockNeed};
ghost use Rattle.lock_tree_laws.specs.declared.answer.Want.TheVariants.{Got as GotIt, NoticeTo, Asleep};
ghost use Rattle.lock_tree_laws.specs.Forest.{State, NeedsAreApart};
ghost use Rattle.lock_tree_laws.specs.Wanted.{Answered, needs_of};
ghost use Rattle.rdb_account.specs.Events.{Demoted, Got};
ghost use Rattle.line_view.specs.Held.{Held};
ghost use Rattle.line_steps.specs.lock_ties.Ties.{IsCall, wanted_at};
ghost use Rattle.session_states.specs.declared.stage.Stage.{Stage};
ghost use Rattle.session_states.specs.declared.stage.Writer.{Writer};
ghost use Rattle.session_states.specs.declared.stage.Phase.TheVariants.{Writing};
ghost use Rattle.session_states.specs.Locks.{lock_of};
ghost use Rattle.session_states.specs.Turns.{got};
ghost use Rattle.session_states.specs.States.{writer, session};
ghost use Rattle.session_states.specs.Shared.{Shared, with_locks};
ghost use Rattle.session_states.specs.Steps.{Step};

use line_steps::Statements;

/// A call on the tree for the lock that a stage wants is its askings in the account. While the want is open, since a notice is due or it
/// sleeps, the stage stays; where the lock is got, that is said too, and the stage comes to the one behind it. A notice that is served is
/// an event of the session whose lock came down.
pub fn locks_are_wanted<S: Statements>()
    ensures notice { (s : ℕ) (c : Shared) (locks : State) (left : List Item) (total : ℕ) (standing : Standing) (known : Held) (spoken waits : Bool) (stage : Stage) (n : LockNeed) (wait : Bool) (t : ℕ) (node : Node) (mode : Mode) → lock_of stage ≡ Some n → (call : IsCall s n c.locks locks) → Answered (needs_of c.locks s) locks s n wait (NoticeTo t node mode) → Step S.stands s c (session left total (Writing (writer standing known spoken waits stage))) (with_locks locks c) (session left total (Writing (writer standing known spoken waits stage))) (wanted_at s n call.asks.nodes) }
    ensures asleep { (s : ℕ) (c : Shared) (locks : State) (left : List Item) (total : ℕ) (standing : Standing) (known : Held) (spoken waits : Bool) (stage : Stage) (n : LockNeed) (wait : Bool) (t : ℕ) → lock_of stage ≡ Some n → (call : IsCall s n c.locks locks) → Answered (needs_of c.locks s) locks s n wait (Asleep t) → Step S.stands s c (session left total (Writing (writer standing known spoken waits stage))) (with_locks locks c) (session left total (Writing (writer standing known spoken waits stage))) (wanted_at s n call.asks.nodes) }
    ensures got_it { (s : ℕ) (c : Shared) (locks : State) (left : List Item) (total : ℕ) (standing : Standing) (known : Held) (spoken waits : Bool) (stage : Stage) (n : LockNeed) (wait : Bool) → lock_of stage ≡ Some n → (call : IsCall s n c.locks locks) → NeedsAreApart locks → Answered (needs_of c.locks s) locks s n wait GotIt → Step S.stands s c (session left total (Writing (writer standing known spoken waits stage))) (with_locks locks c) (session left total (Writing (writer standing known spoken waits (got stage)))) (wanted_at s n call.asks.nodes ++ Got s n ∷ []) }
    ensures served { (s : ℕ) (c : Shared) (locks : State) (left : List Item) (total : ℕ) (w : Writer) (node : Node) (from to : Mode) → locks.parties ≡ c.locks.parties → locks.trail ≡ c.locks.trail → Step S.stands s c (session left total (Writing w)) (with_locks locks c) (session left total (Writing w)) (Demoted s node from to ∷ []) }
{}
