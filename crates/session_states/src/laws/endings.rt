// A transaction begins, the store works for it, and it comes to an end.
ghost use Rattle.std.specs.Prelude.{◌≡◌, ◌∷◌, ℕ, Bool, true, false, not, List, [], Some};
ghost use Rattle.rdo_ast.specs.declared.reply.Standing.{Standing};
ghost use Rattle.rdo_ast.specs.declared.reply.Standing.TheVariants.{Closed};
ghost use Rattle.rdo_ast.specs.declared.syntax.Item.{Item};
ghost use Rattle.rdo_ast.specs.declared.reply.Reply.TheVariants.{Done};
ghost use Rattle.rdo_ast.specs.Tree.{said, commit, rollback};
ghost use Rattle.rdo_ast.specs.Views.{uttered_of};
ghost use Rattle.lock_tree_laws.specs.Forest.{State};
ghost use Rattle.rdb_account.specs.Events.{Began, Committed, RolledBack, Said};
ghost use Rattle.rdb_account.specs.Places.{begins, is_writer};
ghost use Rattle.rdb_account.specs.Lawful.{never_sleeps};
ghost use Rattle.line_view.specs.Held.{Held, nothing};
ghost use Rattle.line_store.specs.Seats.{beginning, committing_by, rolled_back};
ghost use Rattle.line_store.specs.Shelves.{Shelf};
ghost use Rattle.line_store.specs.Calls.{Moves, IsDone, IsCommitted};
ghost use Rattle.session_states.specs.declared.stage.Work.TheVariants.{Opening, Due};
ghost use Rattle.session_states.specs.declared.stage.End.TheVariants.{Ready, Committing, RollingBack, Leaving};
ghost use Rattle.session_states.specs.declared.stage.Stage.TheVariants.{Between, Working, Ending};
ghost use Rattle.session_states.specs.declared.stage.Phase.{Phase};
ghost use Rattle.session_states.specs.declared.stage.Phase.TheVariants.{Outside, Closing, Writing, Over};
ghost use Rattle.session_states.specs.States.{writer, session};
ghost use Rattle.session_states.specs.Shared.{Shared, with_shelf, with_both, RestsWith};
ghost use Rattle.session_states.specs.Steps.{Step};

use line_steps::Statements;

/// A read-write transaction begins as the store is told to begin one. What the store does for a session in a step or more is seen by no
/// account before it is done, also where a step of it fails; then the transaction is open, or what it left is put away.
pub fn the_store_works<S: Statements>()
    ensures begins { (s : ℕ) (c : Shared) (shelf : Shelf) (item : Item) (left : List Item) (total : ℕ) (kind : Standing) (waits : Bool) → begins (uttered_of item) ≡ Some kind → is_writer kind ≡ true → never_sleeps kind ≡ not waits → Moves s beginning c.shelf shelf → Step S.stands s c (session (item ∷ left) total Outside) (with_shelf shelf c) (session left total (Writing (writer Closed nothing false waits (Working item Opening)))) (Began s kind ∷ []) }
    ensures opens { (s : ℕ) (c : Shared) (shelf : Shelf) (left : List Item) (total : ℕ) (standing : Standing) (known : Held) (spoken waits : Bool) (item : Item) → IsDone s c.shelf shelf → Step S.stands s c (session left total (Writing (writer standing known spoken waits (Working item Opening)))) (with_shelf shelf c) (session left total (Writing (writer standing known spoken waits (Working item Due)))) [] }
    ensures goes_on { (s : ℕ) (c : Shared) (shelf : Shelf) (left : List Item) (total : ℕ) (x : Phase) → Moves s (c.shelf.seat s) c.shelf shelf → Step S.stands s c (session left total x) (with_shelf shelf c) (session left total x) [] }
    ensures commits { (s : ℕ) (c : Shared) (shelf : Shelf) (left : List Item) (total : ℕ) (standing : Standing) (known : Held) (spoken waits : Bool) → Moves s (committing_by (c.shelf.seat s)) c.shelf shelf → Step S.stands s c (session left total (Writing (writer standing known spoken waits (Ending Ready)))) (with_shelf shelf c) (session left total (Writing (writer standing known spoken waits (Ending Committing)))) [] }
    ensures closes { (s : ℕ) (c : Shared) (shelf : Shelf) (left : List Item) (total : ℕ) → IsDone s c.shelf shelf → Step S.stands s c (session left total Closing) (with_shelf shelf c) (session left total Outside) [] }
{}

/// A ROLLBACK, or the end of the script in a transaction, has the store undo what was written. Once that is done, and once a commit
/// stands, the transaction has ended, and all its locks are released.
pub fn transactions_end<S: Statements>()
    ensures undoes { (s : ℕ) (c : Shared) (shelf : Shelf) (item : Item) (left : List Item) (total : ℕ) (standing : Standing) (known : Held) (spoken waits : Bool) → uttered_of item ≡ said rollback → Moves s (rolled_back (c.shelf.seat s)) c.shelf shelf → Step S.stands s c (session (item ∷ left) total (Writing (writer standing known spoken waits Between))) (with_shelf shelf c) (session left total (Writing (writer standing known spoken waits (Ending RollingBack)))) [] }
    ensures leaves { (s : ℕ) (c : Shared) (shelf : Shelf) (total : ℕ) (standing : Standing) (known : Held) (spoken waits : Bool) → Moves s (rolled_back (c.shelf.seat s)) c.shelf shelf → Step S.stands s c (session [] total (Writing (writer standing known spoken waits Between))) (with_shelf shelf c) (session [] total (Writing (writer standing known spoken waits (Ending Leaving)))) [] }
    ensures undone { (s : ℕ) (c : Shared) (shelf : Shelf) (locks : State) (left : List Item) (total : ℕ) (standing : Standing) (known : Held) (spoken waits : Bool) → IsDone s c.shelf shelf → RestsWith s [] c.locks locks → Step S.stands s c (session left total (Writing (writer standing known spoken waits (Ending RollingBack)))) (with_both shelf locks c) (session left total Outside) (RolledBack s ∷ Said s (said rollback) [] (Done []) ∷ []) }
    ensures over { (s : ℕ) (c : Shared) (shelf : Shelf) (locks : State) (left : List Item) (total : ℕ) (standing : Standing) (known : Held) (spoken waits : Bool) → IsDone s c.shelf shelf → RestsWith s [] c.locks locks → Step S.stands s c (session left total (Writing (writer standing known spoken waits (Ending Leaving)))) (with_both shelf locks c) (session left total Over) (RolledBack s ∷ []) }
    ensures committed { (s : ℕ) (c : Shared) (shelf : Shelf) (locks : State) (left : List Item) (total : ℕ) (standing : Standing) (known : Held) (spoken waits : Bool) (moment : ℕ) → IsCommitted s moment c.shelf shelf → RestsWith s [] c.locks locks → Step S.stands s c (session left total (Writing (writer standing known spoken waits (Ending Committing)))) (with_both shelf locks c) (session left total Closing) (Committed s moment ∷ Said s (said commit) [] (Done []) ∷ []) }
{}
