// The steps of a session in a read-only transaction, which wants no lock and has nothing to undo.
ghost use Rattle.std.specs.Prelude.{◌≡◌, ◌+◌, ◌∷◌, ◌&&◌, ◌||◌, not, ℕ, Bool, true, false, List, [], Some, None, slice_get};
ghost use Rattle.rdo_ast.specs.declared.reply.Reply.TheVariants.{Done as DoneReply, NoMemory};
ghost use Rattle.rdo_ast.specs.declared.reply.Standing.{Standing};
ghost use Rattle.rdo_ast.specs.declared.reply.Standing.TheVariants.{Closed, ReadOnly};
ghost use Rattle.rdo_ast.specs.declared.syntax.Item.{Item};
ghost use Rattle.rdo_ast.specs.Tree.{said, commit, rollback, back_up};
ghost use Rattle.rdo_ast.specs.Views.{uttered_of};
ghost use Rattle.rdb_account.specs.Events.{Began, Committed, RolledBack, Said};
ghost use Rattle.rdb_account.specs.Places.{backup_of, begins, leaves_none};
ghost use Rattle.rdb_account.specs.Legal.{ends_by};
ghost use Rattle.line_view.specs.Held.{Held, knows, nothing};
ghost use Rattle.line_view.specs.Knowledge.{IsInOrder, Agrees};
ghost use Rattle.line_view.specs.declared.need.Need.{Need};
ghost use Rattle.line_store.specs.Seats.{outside, reading, copying};
ghost use Rattle.line_store.specs.Shelves.{Shelf, seen_by};
ghost use Rattle.line_store.specs.Calls.{KeepsOthers, Moves, KeepsSpace};
ghost use Rattle.line_steps.specs.session_jobs.Jobs.{IsFound};
ghost use Rattle.line_steps.specs.session_jobs.declared.jobs.Found.TheVariants.{Done};
ghost use Rattle.line_steps.specs.session_jobs.declared.jobs.TxRecord.{TxRecord};
ghost use Rattle.session_states.specs.declared.stage.ReaderWork.TheVariants.{Due, Out, Copying};
ghost use Rattle.session_states.specs.declared.stage.ReaderStage.{ReaderStage};
ghost use Rattle.session_states.specs.declared.stage.ReaderStage.TheVariants.{Between, Working, Gathering};
ghost use Rattle.session_states.specs.declared.stage.Phase.TheVariants.{Outside, Over, Reading};
ghost use Rattle.session_states.specs.States.{reader, reader_item, session};
ghost use Rattle.session_states.specs.Shared.{Shared, with_shelf};
ghost use Rattle.session_states.specs.Steps.{Step};

use line_steps::Statements;

/// A read-only transaction begins as the store is told so, and reads the lines that are committed then, whatever others commit. Its
/// statements are worked, all that a job named is read in turn before it is due again, and they are said at once. A need may be passed over,
/// and the rest of them let go. A START_TRANSACTION for which no memory is found is said otherwise.
pub fn readers_step<S: Statements>()
    ensures begins { (s : ℕ) (c : Shared) (shelf : Shelf) (item : Item) (left : List Item) (total : ℕ) → begins (uttered_of item) ≡ Some ReadOnly → backup_of (uttered_of item) ≡ None → Moves s (reading c.shelf.now) c.shelf shelf → Step S.stands s c (session (item ∷ left) total Outside) (with_shelf shelf c) (session left total (Reading (reader Closed nothing false (Working item Due)))) (Began s ReadOnly ∷ []) }
    ensures takes { (s : ℕ) (c : Shared) (item : Item) (left : List Item) (total : ℕ) (standing : Standing) (known : Held) (spoken : Bool) → ends_by (uttered_of item) ≡ false → Step S.stands s c (session (item ∷ left) total (Reading (reader standing known spoken Between))) c (session left total (Reading (reader standing known spoken (Working item Due)))) [] }
    ensures hands_out { (s : ℕ) (c : Shared) (left : List Item) (total : ℕ) (standing : Standing) (known : Held) (spoken : Bool) (item : Item) → Step S.stands s c (session left total (Reading (reader standing known spoken (Working item Due)))) c (session left total (Reading (reader standing known spoken (Working item Out)))) [] }
    ensures lacking { (s : ℕ) (c : Shared) (left : List Item) (total : ℕ) (standing : Standing) (known : Held) (spoken : Bool) (item : Item) (n : Need) (later : List Need) → Step S.stands s c (session left total (Reading (reader standing known spoken (Working item Out)))) c (session left total (Reading (reader standing known spoken (Gathering item n later 0)))) [] }
    ensures more { (s : ℕ) (c : Shared) (shelf : Shelf) (left : List Item) (total : ℕ) (standing : Standing) (known new : Held) (spoken : Bool) (item : Item) (n : Need) (later : List Need) (place : ℕ) → KeepsOthers s c.shelf shelf → shelf.now ≡ c.shelf.now → shelf.seat s ≡ c.shelf.seat s → KeepsSpace c.shelf.space shelf.space → (IsInOrder (seen_by s c.shelf) → Agrees (knows known) (seen_by s c.shelf) → Agrees (knows new) (seen_by s c.shelf)) → Step S.stands s c (session left total (Reading (reader standing known spoken (Gathering item n later place)))) (with_shelf shelf c) (session left total (Reading (reader standing new spoken (Gathering item n later place)))) [] }
    ensures read_on { (s : ℕ) (c : Shared) (shelf : Shelf) (left : List Item) (total : ℕ) (standing : Standing) (known new : Held) (spoken : Bool) (item : Item) (n m : Need) (later : List Need) (place : ℕ) → slice_get later place ≡ Some m → KeepsOthers s c.shelf shelf → shelf.now ≡ c.shelf.now → shelf.seat s ≡ c.shelf.seat s → KeepsSpace c.shelf.space shelf.space → (IsInOrder (seen_by s c.shelf) → Agrees (knows known) (seen_by s c.shelf) → Agrees (knows new) (seen_by s c.shelf)) → Step S.stands s c (session left total (Reading (reader standing known spoken (Gathering item n later place)))) (with_shelf shelf c) (session left total (Reading (reader standing new spoken (Gathering item m later (place + 1))))) [] }
    ensures read { (s : ℕ) (c : Shared) (shelf : Shelf) (left : List Item) (total : ℕ) (standing : Standing) (known new : Held) (spoken : Bool) (item : Item) (n : Need) (later : List Need) (place : ℕ) → KeepsOthers s c.shelf shelf → shelf.now ≡ c.shelf.now → shelf.seat s ≡ c.shelf.seat s → KeepsSpace c.shelf.space shelf.space → (IsInOrder (seen_by s c.shelf) → Agrees (knows known) (seen_by s c.shelf) → Agrees (knows new) (seen_by s c.shelf)) → Step S.stands s c (session left total (Reading (reader standing known spoken (Gathering item n later place)))) (with_shelf shelf c) (session left total (Reading (reader standing new spoken (Working item Due)))) [] }
    ensures passes { (s : ℕ) (c : Shared) (left : List Item) (total : ℕ) (standing : Standing) (known : Held) (spoken : Bool) (item : Item) (n m : Need) (later : List Need) (place : ℕ) → slice_get later place ≡ Some m → Step S.stands s c (session left total (Reading (reader standing known spoken (Gathering item n later place)))) c (session left total (Reading (reader standing known spoken (Gathering item m later (place + 1))))) [] }
    ensures drops { (s : ℕ) (c : Shared) (left : List Item) (total : ℕ) (standing : Standing) (known : Held) (spoken : Bool) (item : Item) (n : Need) (later : List Need) (place : ℕ) → Step S.stands s c (session left total (Reading (reader standing known spoken (Gathering item n later place)))) c (session left total (Reading (reader standing known spoken (Working item Due)))) [] }
    ensures answered { (s : ℕ) (c : Shared) (left : List Item) (total : ℕ) (standing : Standing) (known : Held) (spoken : Bool) (item : Item) (r : TxRecord) → IsFound S.stands c.word standing (uttered_of item) (knows known) (Done r) → Step S.stands s c (session left total (Reading (reader standing known spoken (Working item Out)))) c (session left total (Reading (reader ReadOnly known true Between))) (Said s (uttered_of item) r.choices r.reply ∷ []) }
    ensures forgone { (s : ℕ) (c : Shared) (left : List Item) (total : ℕ) (standing : Standing) (known : Held) (spoken : Bool) (item : Item) (stage : ReaderStage) → reader_item stage ≡ Some (uttered_of item) → (spoken || not (leaves_none (uttered_of item))) ≡ true → Step S.stands s c (session left total (Reading (reader standing known spoken stage))) c (session left total (Reading (reader ReadOnly known true Between))) (Said s (uttered_of item) [] NoMemory ∷ []) }
{}

/// An online backup is a read-only transaction of its own: it begins as the store is told to copy the lines that are committed then, and
/// once they are copied it is committed, at the moment that the store tells, and said. What the store does meanwhile is seen by no account.
pub fn readers_copy<S: Statements>()
    ensures begins { (s : ℕ) (c : Shared) (shelf : Shelf) (item : Item) (left : List Item) (total n : ℕ) → uttered_of item ≡ said (back_up n) → Moves s (copying n c.shelf.now) c.shelf shelf → Step S.stands s c (session (item ∷ left) total Outside) (with_shelf shelf c) (session left total (Reading (reader Closed nothing false (Working item Copying)))) (Began s ReadOnly ∷ []) }
    ensures copied { (s : ℕ) (c : Shared) (shelf : Shelf) (left : List Item) (total : ℕ) (standing : Standing) (known : Held) (spoken : Bool) (item : Item) → Moves s outside c.shelf shelf → Step S.stands s c (session left total (Reading (reader standing known spoken (Working item Copying)))) (with_shelf shelf c) (session left total Outside) (Committed s shelf.clock.time ∷ Said s (uttered_of item) [] (DoneReply []) ∷ []) }
{}

/// A read-only transaction ends in one step: by COMMIT, at the moment that the store tells, by ROLLBACK, with its script, or as no memory
/// is found for the START_TRANSACTION that began it.
pub fn readers_end<S: Statements>()
    ensures commits { (s : ℕ) (c : Shared) (shelf : Shelf) (item : Item) (left : List Item) (total : ℕ) (standing : Standing) (known : Held) (spoken : Bool) → uttered_of item ≡ said commit → Moves s outside c.shelf shelf → Step S.stands s c (session (item ∷ left) total (Reading (reader standing known spoken Between))) (with_shelf shelf c) (session left total Outside) (Committed s shelf.clock.time ∷ Said s (said commit) [] (DoneReply []) ∷ []) }
    ensures rolls_back { (s : ℕ) (c : Shared) (shelf : Shelf) (item : Item) (left : List Item) (total : ℕ) (standing : Standing) (known : Held) (spoken : Bool) → uttered_of item ≡ said rollback → Moves s outside c.shelf shelf → Step S.stands s c (session (item ∷ left) total (Reading (reader standing known spoken Between))) (with_shelf shelf c) (session left total Outside) (RolledBack s ∷ Said s (said rollback) [] (DoneReply []) ∷ []) }
    ensures leaves { (s : ℕ) (c : Shared) (shelf : Shelf) (total : ℕ) (standing : Standing) (known : Held) (spoken : Bool) → Moves s outside c.shelf shelf → Step S.stands s c (session [] total (Reading (reader standing known spoken Between))) (with_shelf shelf c) (session [] total Over) (RolledBack s ∷ []) }
    ensures unstarted { (s : ℕ) (c : Shared) (shelf : Shelf) (left : List Item) (total : ℕ) (standing : Standing) (known : Held) (item : Item) (stage : ReaderStage) → reader_item stage ≡ Some (uttered_of item) → leaves_none (uttered_of item) ≡ true → Moves s outside c.shelf shelf → Step S.stands s c (session left total (Reading (reader standing known false stage))) (with_shelf shelf c) (session left total Outside) (Said s (uttered_of item) [] NoMemory ∷ RolledBack s ∷ []) }
{}
