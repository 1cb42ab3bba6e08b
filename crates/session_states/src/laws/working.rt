// A statement is taken up, worked, and read for.
ghost use Rattle.std.specs.Prelude.{◌≡◌, ◌∷◌, ℕ, Bool, false, List, []};
ghost use Rattle.rdo_ast.specs.declared.reply.Standing.{Standing};
ghost use Rattle.rdo_ast.specs.declared.syntax.Item.{Item};
ghost use Rattle.rdo_ast.specs.Tree.{said, commit};
ghost use Rattle.rdo_ast.specs.Views.{uttered_of};
ghost use Rattle.rdb_types.specs.declared.keys.Dbkey.{Dbkey};
ghost use Rattle.rdb_account.specs.Places.{Opening, Place};
ghost use Rattle.rdb_account.specs.Legal.{ends_by};
ghost use Rattle.line_view.specs.Held.{Held, knows};
ghost use Rattle.line_view.specs.declared.need.Need.{Need};
ghost use Rattle.line_view.specs.declared.need.Need.TheVariants.{Line, Room as OfRoom};
ghost use Rattle.line_view.specs.declared.need.Room.{Room};
ghost use Rattle.line_store.specs.Shelves.{Shelf};
ghost use Rattle.line_store.specs.Calls.{KeepsOthers, KeepsSpace};
ghost use Rattle.line_steps.specs.session_jobs.Jobs.{IsFound};
ghost use Rattle.line_steps.specs.session_jobs.declared.jobs.Found.TheVariants.{Done, Missing, Bad};
ghost use Rattle.line_steps.specs.session_jobs.declared.jobs.TxRecord.{TxRecord};
ghost use Rattle.line_steps.specs.Right.{Ground};
ghost use Rattle.store_counts.specs.Counts.{TakesAt};
ghost use Rattle.session_states.specs.declared.stage.Work.TheVariants.{Due, Out, Lacking, Housing, Fetching, Lodging};
ghost use Rattle.session_states.specs.declared.stage.Laying.TheVariants.{Claiming};
ghost use Rattle.session_states.specs.declared.stage.End.TheVariants.{Preparing};
ghost use Rattle.session_states.specs.declared.stage.Stage.TheVariants.{Between, Working, Saying, Ending};
ghost use Rattle.session_states.specs.declared.stage.Phase.TheVariants.{Writing};
ghost use Rattle.session_states.specs.States.{writer, session};
ghost use Rattle.session_states.specs.Shared.{Shared, with_shelf};
ghost use Rattle.session_states.specs.Fits.{Learns};
ghost use Rattle.session_states.specs.Steps.{Finds, Step};

use line_steps::Statements;

/// The next item is taken up; its job is handed out and comes back with a record, or with what it lacks. No job of a session calls a
/// line bad.
pub fn statements_are_worked<S: Statements>()
    ensures takes { (s : ℕ) (c : Shared) (item : Item) (left : List Item) (total : ℕ) (standing : Standing) (known : Held) (spoken waits : Bool) → ends_by (uttered_of item) ≡ false → Step S.stands s c (session (item ∷ left) total (Writing (writer standing known spoken waits Between))) c (session left total (Writing (writer standing known spoken waits (Working item Due)))) [] }
    ensures takes_commit { (s : ℕ) (c : Shared) (item : Item) (left : List Item) (total : ℕ) (standing : Standing) (known : Held) (spoken waits : Bool) → uttered_of item ≡ said commit → Step S.stands s c (session (item ∷ left) total (Writing (writer standing known spoken waits Between))) c (session left total (Writing (writer standing known spoken waits (Ending Preparing)))) [] }
    ensures hands_out { (s : ℕ) (c : Shared) (left : List Item) (total : ℕ) (standing : Standing) (known : Held) (spoken waits : Bool) (item : Item) → Step S.stands s c (session left total (Writing (writer standing known spoken waits (Working item Due)))) c (session left total (Writing (writer standing known spoken waits (Working item Out)))) [] }
    ensures done { (s : ℕ) (c : Shared) (left : List Item) (total : ℕ) (standing : Standing) (known : Held) (spoken waits : Bool) (item : Item) (r : TxRecord) → IsFound S.stands c.word standing (uttered_of item) (knows known) (Done r) → Step S.stands s c (session left total (Writing (writer standing known spoken waits (Working item Out)))) c (session left total (Writing (writer standing known spoken waits (Saying item r (Claiming 0))))) [] }
    ensures lacking { (s : ℕ) (c : Shared) (left : List Item) (total : ℕ) (standing : Standing) (known : Held) (spoken waits : Bool) (item : Item) (next : Need) (later : List Need) → IsFound S.stands c.word standing (uttered_of item) (knows known) (Missing next later) → Step S.stands s c (session left total (Writing (writer standing known spoken waits (Working item Out)))) c (session left total (Writing (writer standing known spoken waits (Working item (Lacking next))))) [] }
    ensures never_bad { (s : ℕ) (c : Shared) (left : List Item) (total : ℕ) (standing : Standing) (known : Held) (spoken waits : Bool) (item : Item) (key : Dbkey) → IsFound S.stands c.word standing (uttered_of item) (knows known) (Bad key) → (o : Opening) (p : Place) (g : Ground) → Finds S.stands o p g c s (session left total (Writing (writer standing known spoken waits (Working item Out)))) → ⊥ }
    ensures houses { (s : ℕ) (c : Shared) (left : List Item) (total : ℕ) (standing : Standing) (known : Held) (spoken waits : Bool) (item : Item) (room : Room) (key : Dbkey) → key.area ≡ room.area → Step S.stands s c (session left total (Writing (writer standing known spoken waits (Working item (Lacking (OfRoom room)))))) c (session left total (Writing (writer standing known spoken waits (Working item (Housing room key))))) [] }
{}

/// What is locked is read, and what the session knows goes on agreeing with the lines that it sees; then the job is due again. The store takes
/// no room but the page of a line that was named for a room.
pub fn what_is_locked_is_read<S: Statements>()
    ensures more { (s : ℕ) (c : Shared) (shelf : Shelf) (left : List Item) (total : ℕ) (standing : Standing) (known new : Held) (spoken waits : Bool) (item : Item) (n : Need) → KeepsOthers s c.shelf shelf → shelf.now ≡ c.shelf.now → shelf.seat s ≡ c.shelf.seat s → KeepsSpace c.shelf.space shelf.space → Learns s c.shelf n known new → Step S.stands s c (session left total (Writing (writer standing known spoken waits (Working item (Fetching n))))) (with_shelf shelf c) (session left total (Writing (writer standing new spoken waits (Working item (Fetching n))))) [] }
    ensures read { (s : ℕ) (c : Shared) (shelf : Shelf) (left : List Item) (total : ℕ) (standing : Standing) (known new : Held) (spoken waits : Bool) (item : Item) (n : Need) → KeepsOthers s c.shelf shelf → shelf.now ≡ c.shelf.now → shelf.seat s ≡ c.shelf.seat s → KeepsSpace c.shelf.space shelf.space → Learns s c.shelf n known new → Step S.stands s c (session left total (Writing (writer standing known spoken waits (Working item (Fetching n))))) (with_shelf shelf c) (session left total (Writing (writer standing new spoken waits (Working item Due)))) [] }
    ensures lodging { (s : ℕ) (c : Shared) (shelf : Shelf) (left : List Item) (total : ℕ) (standing : Standing) (known new : Held) (spoken waits : Bool) (item : Item) (room : Room) (key : Dbkey) → KeepsOthers s c.shelf shelf → shelf.now ≡ c.shelf.now → shelf.seat s ≡ c.shelf.seat s → KeepsSpace c.shelf.space shelf.space → Learns s c.shelf (Line key) known new → Step S.stands s c (session left total (Writing (writer standing known spoken waits (Working item (Lodging room key))))) (with_shelf shelf c) (session left total (Writing (writer standing new spoken waits (Working item (Lodging room key))))) [] }
    ensures lodged { (s : ℕ) (c : Shared) (shelf : Shelf) (left : List Item) (total : ℕ) (standing : Standing) (known new : Held) (spoken waits : Bool) (item : Item) (room : Room) (key : Dbkey) → KeepsOthers s c.shelf shelf → shelf.now ≡ c.shelf.now → shelf.seat s ≡ c.shelf.seat s → TakesAt key c.shelf.space shelf.space → Learns s c.shelf (Line key) known new → Step S.stands s c (session left total (Writing (writer standing known spoken waits (Working item (Lodging room key))))) (with_shelf shelf c) (session left total (Writing (writer standing new spoken waits (Working item Due)))) [] }
{}
