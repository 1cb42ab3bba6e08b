// A session comes nearer to its end.
ghost use Rattle.std.specs.Prelude.{◌≡◌, ◌<◌, ℕ, Bool, true, false, List, Some, is_some};
ghost use Rattle.rdo_ast.specs.declared.reply.Standing.{Standing};
ghost use Rattle.rdo_ast.specs.declared.syntax.Item.{Item};
ghost use Rattle.lock_needs.specs.declared.need.Need.{Need as LockNeed};
ghost use Rattle.lock_needs.specs.declared.party.OpenWant.{OpenWant};
ghost use Rattle.lock_needs.specs.Wants.{sleeps_at};
ghost use Rattle.lock_tree_laws.specs.Forest.{State, opened_of};
ghost use Rattle.lock_tree_laws.specs.LockTable.{granted_at};
ghost use Rattle.lock_tree_laws.specs.Progress.{Falls as LocksFall, NeverRises, LeavesOthers};
ghost use Rattle.line_view.specs.Held.{Held};
ghost use Rattle.session_states.specs.declared.stage.Phase.{Phase};
ghost use Rattle.session_states.specs.declared.stage.Phase.TheVariants.{Writing};
ghost use Rattle.session_states.specs.declared.stage.Stage.{Stage};
ghost use Rattle.session_states.specs.Locks.{lock_of};
ghost use Rattle.session_states.specs.States.{session, writer};
ghost use Rattle.session_states.specs.Turns.{got};
ghost use Rattle.session_measure.specs.Weights.{Beside, items_in, rank};
ghost use Rattle.session_measure.specs.Nearer.{takes_next, has_out, ComesNearer, StaysNear};

/// A session comes nearer where its item is answered, where it comes to a lower rank, and where a lock is got, with any rounds that it may
/// have. One whose want is open behind a call comes no farther away where a want that was open moves on, and nearer where it comes further;
/// one that wasn't queued and is queued has come further.
pub fn sessions_come_nearer()
    ensures answered { (s : ℕ) (c d : Beside) (x y : Phase) (left : List Item) (total : ℕ) → items_in y < items_in x → ComesNearer c d s (session left total x) (session left total y) }
    ensures ranked { (s : ℕ) (c d : Beside) (x y : Phase) (left : List Item) (total : ℕ) → items_in y ≡ items_in x → rank y < rank x → ComesNearer c d s (session left total x) (session left total y) }
    ensures got_it { (s : ℕ) (c d : Beside) (standing : Standing) (known : Held) (spoken waits : Bool) (stage : Stage) (n : LockNeed) (left : List Item) (total : ℕ) → lock_of stage ≡ Some n → ComesNearer c d s (session left total (Writing (writer standing known spoken waits stage))) (session left total (Writing (writer standing known spoken waits (got stage)))) }
    ensures moves_on { (s : ℕ) (c d : Beside) (x : Phase) (w : OpenWant) (left : List Item) (total : ℕ) → takes_next x ≡ false → has_out x ≡ false → d.steps s ≡ c.steps s → opened_of d.locks s ≡ Some w → (is_some (opened_of c.locks s) ≡ true → NeverRises s c.locks d.locks) → StaysNear c d s (session left total x) (session left total x) }
    ensures comes_further { (s : ℕ) (c d : Beside) (x : Phase) (w : OpenWant) (left : List Item) (total : ℕ) → takes_next x ≡ false → has_out x ≡ false → d.steps s ≡ c.steps s → opened_of d.locks s ≡ Some w → ((v : OpenWant) → opened_of c.locks s ≡ Some v → LocksFall s c.locks d.locks) → ComesNearer c d s (session left total x) (session left total x) }
    ensures queued { (old new : State) (s : ℕ) (w v : OpenWant) → LeavesOthers s old new → NeverRises s old new → opened_of old s ≡ Some w → opened_of new s ≡ Some v → sleeps_at (granted_at old.table s) (Some w) w.here ≡ false → sleeps_at (granted_at new.table s) (Some v) v.here ≡ true → LocksFall s old new }
{}
