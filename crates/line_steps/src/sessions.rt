// What one step of a session leaves of all of them.
ghost use Rattle.std.specs.Prelude.{◌≡◌, ◌≤◌, ◌++◌, ℕ, List, [], Some, suc, slice_get, slice_set};
ghost use Rattle.line_steps.specs.Members.{Member, State, member};
ghost use Rattle.line_steps.specs.Right.{AreRight, Ground};
ghost use Rattle.line_steps.specs.Steps.{Found, Here, Steps};
ghost use Rattle.rdb_account.specs.Events.{Event};
ghost use Rattle.rdb_account.specs.Places.{Opening, Place, place};
ghost use Rattle.rdo_ast.specs.Tree.{Uttered};

use line_history::Statements;

/// What is always true of all sessions together gives what each of them finds where nobody is dead. One step of one session keeps it
/// for all: for the others the committed lines are alike. Steps of one session in turn are one step. Time may go on at each.
pub fn sessions_go_on<S: Statements>()
    ensures found { (o : Opening) (g : Ground) (members : List Member) (events : List Event) (i : ℕ) (m : Member) → g.dead ≡ 0 → AreRight S.stands o g members events → slice_get members i ≡ Some m → Here S.stands o (place o events) g (suc i) m }
    ensures kept { (o : Opening) (g h : Ground) (members : List Member) (events es : List Event) (i : ℕ) (n : Member) → AreRight S.stands o g members events → Steps S.stands o (place o events) g (suc i) n h es → AreRight S.stands o h (slice_set members i n) (events ++ es) }
    ensures behind { (o : Opening) (p : Place) (g h : Ground) (s : ℕ) (m n : Member) (es : List Event) → h.dead ≡ 0 → Here S.stands o p g s m → (st : Steps S.stands o p g s n h es) → Here S.stands o st.to h s n }
    ensures in_turn { (o : Opening) (p : Place) (g h k : Ground) (s : ℕ) (n m : Member) (es fs : List Event) → (a : Steps S.stands o p g s n h es) → Steps S.stands o a.to h s m k fs → Steps S.stands o p g s m k (es ++ fs) }
    ensures nothing { (o : Opening) (p : Place) (g : Ground) (s : ℕ) (m : Member) → Here S.stands o p g s m → Steps S.stands o p g s m g [] }
    ensures elapses { (o : Opening) (p : Place) (g : Ground) (s : ℕ) (left : List Uttered) (state : State) (total time : ℕ) → (h : Found S.stands o p g s (member left state total)) → g.time ≤ time → Steps S.stands o p g s (member left state total) (record g { time = time }) [] }
{}
