// A session dies, and is recovered, whoever else is dead.
ghost use Rattle.std.specs.Prelude.{◌≡◌, ◌∷◌, ℕ, true, false, List, []};
ghost use Rattle.rdb_types.specs.declared.session.Cause.{Cause};
ghost use Rattle.rdo_ast.specs.declared.syntax.Item.{Item};
ghost use Rattle.lock_tree_laws.specs.Forest.{State};
ghost use Rattle.rdb_account.specs.Events.{Died, Recovered};
ghost use Rattle.rdb_account.specs.Places.{Opening};
ghost use Rattle.line_store.specs.Seats.{died};
ghost use Rattle.line_store.specs.Shelves.{Shelf};
ghost use Rattle.line_store.specs.Calls.{Moves, IsUndone, IsSaved};
ghost use Rattle.session_states.specs.declared.stage.Phase.{Phase};
ghost use Rattle.session_states.specs.States.{session, dead_session, gone_session, may_die_in};
ghost use Rattle.session_states.specs.Shared.{Shared, with_shelf, with_death, with_recovery, RestsWith};
ghost use Rattle.session_states.specs.Steps.{Fall};

use line_steps::Statements;

/// A session dies where it stands, of a cause of which it may, and keeps its locks. The store undoes it, or tells that its commit stands;
/// then it is recovered, and its locks are released.
pub fn the_dead_are_recovered<S: Statements>()
    ensures dies { (o : Opening) (s : ℕ) (c : Shared) (shelf : Shelf) (left : List Item) (total : ℕ) (x : Phase) (cause : Cause) → may_die_in o s left x cause ≡ true → Moves s (died (c.shelf.seat s)) c.shelf shelf → Fall S.stands o s c (session left total x) (with_death shelf c) (dead_session left total x) (Died s cause ∷ []) }
    ensures goes_on { (o : Opening) (s : ℕ) (c : Shared) (shelf : Shelf) (left : List Item) (total : ℕ) (x : Phase) → Moves s (c.shelf.seat s) c.shelf shelf → Fall S.stands o s c (dead_session left total x) (with_shelf shelf c) (dead_session left total x) [] }
    ensures undone { (o : Opening) (s : ℕ) (c : Shared) (shelf : Shelf) (locks : State) (left : List Item) (total : ℕ) (x : Phase) (moment : ℕ) → IsUndone s moment c.shelf shelf → RestsWith s [] c.locks locks → Fall S.stands o s c (dead_session left total x) (with_recovery shelf locks c) (gone_session left total x) (Recovered s false moment ∷ []) }
    ensures committed { (o : Opening) (s : ℕ) (c : Shared) (shelf : Shelf) (locks : State) (left : List Item) (total : ℕ) (x : Phase) (moment : ℕ) → IsSaved s moment c.shelf shelf → RestsWith s [] c.locks locks → Fall S.stands o s c (dead_session left total x) (with_recovery shelf locks c) (gone_session left total x) (Recovered s true moment ∷ []) }
{}
