// A COMMIT is prepared as it wants the journal.
ghost use Rattle.std.specs.Prelude.{◌≡◌, ◌∷◌, ◌++◌, ℕ, Bool, true, List, []};
ghost use Rattle.rdo_ast.specs.declared.reply.Standing.{Standing};
ghost use Rattle.rdo_ast.specs.declared.reply.Reply.TheVariants.{NoMemory};
ghost use Rattle.rdo_ast.specs.declared.syntax.Item.{Item};
ghost use Rattle.rdo_ast.specs.Tree.{said, commit};
ghost use Rattle.vms_queues.specs.declared.lock_mode.Mode.TheVariants.{EX};
ghost use Rattle.lock_tree_laws.specs.declared.answer.Want.TheVariants.{Got as GotIt, Asleep};
ghost use Rattle.lock_tree_laws.specs.Forest.{State, NeedsAreApart};
ghost use Rattle.lock_tree_laws.specs.Wanted.{Answered, needs_of};
ghost use Rattle.rdb_account.specs.Events.{Got, Said, need};
ghost use Rattle.line_view.specs.Held.{Held};
ghost use Rattle.line_store.specs.Seats.{prepared_by, given_back};
ghost use Rattle.line_store.specs.Shelves.{Shelf};
ghost use Rattle.line_store.specs.Calls.{Moves};
ghost use Rattle.line_steps.specs.Images.{journal_node};
ghost use Rattle.line_steps.specs.lock_ties.Ties.{IsCall, wanted_at};
ghost use Rattle.session_states.specs.declared.stage.End.TheVariants.{Preparing, Journal, Ready};
ghost use Rattle.session_states.specs.declared.stage.Stage.TheVariants.{Between, Ending};
ghost use Rattle.session_states.specs.declared.stage.Phase.TheVariants.{Writing};
ghost use Rattle.session_states.specs.States.{writer, session};
ghost use Rattle.session_states.specs.Shared.{Shared, with_both, RestsWith};
ghost use Rattle.session_states.specs.Steps.{Step};

use line_steps::Statements;

/// Room and memory of a COMMIT are taken in the step in which it first asks for the journal, so that the account knows for whom room is
/// taken. They are given back where no memory is found for its want: as it opens, or later.
pub fn commits_are_prepared<S: Statements>()
    ensures asleep { (s : ℕ) (c : Shared) (shelf : Shelf) (locks : State) (left : List Item) (total : ℕ) (standing : Standing) (known : Held) (spoken waits wait : Bool) (t : ℕ) → Moves s (prepared_by (c.shelf.seat s)) c.shelf shelf → (call : IsCall s (need journal_node EX) c.locks locks) → (call.asks.nodes ≡ [] → ⊥) → Answered (needs_of c.locks s) locks s (need journal_node EX) wait (Asleep t) → Step S.stands s c (session left total (Writing (writer standing known spoken waits (Ending Preparing)))) (with_both shelf locks c) (session left total (Writing (writer standing known spoken waits (Ending Journal)))) (wanted_at s (need journal_node EX) call.asks.nodes) }
    ensures got_it { (s : ℕ) (c : Shared) (shelf : Shelf) (locks : State) (left : List Item) (total : ℕ) (standing : Standing) (known : Held) (spoken waits wait : Bool) → Moves s (prepared_by (c.shelf.seat s)) c.shelf shelf → (call : IsCall s (need journal_node EX) c.locks locks) → (call.asks.nodes ≡ [] → ⊥) → NeedsAreApart locks → Answered (needs_of c.locks s) locks s (need journal_node EX) wait GotIt → Step S.stands s c (session left total (Writing (writer standing known spoken waits (Ending Preparing)))) (with_both shelf locks c) (session left total (Writing (writer standing known spoken waits (Ending Ready)))) (wanted_at s (need journal_node EX) call.asks.nodes ++ Got s (need journal_node EX) ∷ []) }
    ensures unprepared { (s : ℕ) (c : Shared) (shelf : Shelf) (locks : State) (left : List Item) (total : ℕ) (standing : Standing) (known : Held) (waits : Bool) → Moves s (c.shelf.seat s) c.shelf shelf → RestsWith s (needs_of c.locks s) c.locks locks → Step S.stands s c (session left total (Writing (writer standing known true waits (Ending Preparing)))) (with_both shelf locks c) (session left total (Writing (writer standing known true waits Between))) (Said s (said commit) [] NoMemory ∷ []) }
    ensures given_back { (s : ℕ) (c : Shared) (shelf : Shelf) (locks : State) (left : List Item) (total : ℕ) (standing : Standing) (known : Held) (waits : Bool) → Moves s (given_back (c.shelf.seat s)) c.shelf shelf → RestsWith s (needs_of c.locks s) c.locks locks → Step S.stands s c (session left total (Writing (writer standing known true waits (Ending Journal)))) (with_both shelf locks c) (session left total (Writing (writer standing known true waits Between))) (Said s (said commit) [] NoMemory ∷ []) }
{}
