// Deaths and recoveries.
ghost use Rattle.std.specs.Prelude.{◌≡◌, ◌≤◌, ◌&&◌, ◌+◌, ◌-◌, ◌∷◌, ℕ, true, false, not, List, [], Some};
ghost use Rattle.line_steps.specs.Members.{Member, State, fallen, left_of, life_of, member, recovered, writing};
ghost use Rattle.line_steps.specs.Right.{Desk, Ground, at_recovery, with_dead};
ghost use Rattle.line_steps.specs.Steps.{Found, Steps};
ghost use Rattle.line_view.specs.Writes.{laid_all};
ghost use Rattle.rdb_account.specs.Events.{Died, Recovered};
ghost use Rattle.rdb_account.specs.Legal.{has_not_died, may_die_of};
ghost use Rattle.rdb_account.specs.Places.{Opening, Place};
ghost use Rattle.rdb_types.specs.declared.session.Cause.{Cause};
ghost use Rattle.rdo_ast.specs.Tree.{Uttered, commit, said};
ghost use Rattle.rdo_ast.specs.declared.reply.Standing.{Standing};

use line_history::Statements;

/// A session dies where it stands, of a cause of which it may, and nothing of the others changes. Its transaction is undone, or
/// committed where its commit had reached the journal.
pub fn the_dead_are_recovered<S: Statements>()
    ensures dies { (o : Opening) (p : Place) (g : Ground) (s : ℕ) (left : List Uttered) (state : State) (total : ℕ) (c : Cause) → (h : Found S.stands o p g s (member left state total)) → has_not_died (life_of state) ≡ true → may_die_of o p s c ≡ true → Steps S.stands o p g s (member left (fallen state) total) (with_dead (g.dead + 1) g) (Died s c ∷ []) }
    ensures undone { (o : Opening) (p : Place) (g : Ground) (s : ℕ) (m : Member) (state : State) (d : Desk) (moment time : ℕ) → (h : Found S.stands o p g s m) → m.state ≡ fallen state → p.moment ≤ moment → moment ≤ time → Steps S.stands o p g s (member (left_of m) recovered m.total) (at_recovery s g.now d time (g.dead - 1) g) (Recovered s false moment ∷ []) }
    ensures committed { (o : Opening) (p : Place) (g : Ground) (s : ℕ) (left : List Uttered) (total : ℕ) (standing : Standing) (d : Desk) (moment time : ℕ) → (h : Found S.stands o p g s (member left (fallen (writing standing (Some (said commit)))) total)) → p.moment ≤ moment → moment ≤ time → Steps S.stands o p g s (member (said commit ∷ left) recovered total) (at_recovery s (laid_all (g.desk s).writes g.now) d time (g.dead - 1) g) (Recovered s true moment ∷ []) }
{}
