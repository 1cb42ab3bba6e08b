// All that a job lacked is locked and read in turn.
ghost use Rattle.std.specs.Prelude.{◌≡◌, ◌+◌, ℕ, Bool, List, [], Some, slice_get};
ghost use Rattle.rdo_ast.specs.declared.reply.Standing.{Standing};
ghost use Rattle.rdo_ast.specs.declared.syntax.Item.{Item};
ghost use Rattle.rdo_ast.specs.Views.{uttered_of};
ghost use Rattle.line_view.specs.Held.{Held, knows};
ghost use Rattle.line_view.specs.declared.need.Need.{Need};
ghost use Rattle.line_view.specs.declared.need.Need.TheVariants.{Line, Room as OfRoom};
ghost use Rattle.line_view.specs.declared.need.Room.{Room};
ghost use Rattle.rdb_types.specs.declared.keys.Dbkey.{Dbkey};
ghost use Rattle.store_counts.specs.Counts.{TakesAt};
ghost use Rattle.line_store.specs.Shelves.{Shelf};
ghost use Rattle.line_store.specs.Calls.{KeepsOthers, KeepsSpace};
ghost use Rattle.line_steps.specs.session_jobs.Jobs.{IsFound};
ghost use Rattle.line_steps.specs.session_jobs.declared.jobs.Found.TheVariants.{Missing};
ghost use Rattle.stepped_jobs.specs.More.{KnowsMore};
ghost use Rattle.session_states.specs.declared.stage.Gather.TheVariants.{Locking, Housing, Reading, Lodging};
ghost use Rattle.session_states.specs.declared.stage.Work.TheVariants.{Out, Lacking, Fetching};
ghost use Rattle.session_states.specs.declared.stage.Work.TheVariants as work;
ghost use Rattle.session_states.specs.declared.stage.Stage.TheVariants.{Working, Gathering};
ghost use Rattle.session_states.specs.declared.stage.Phase.TheVariants.{Writing};
ghost use Rattle.session_states.specs.Fits.{Learns};
ghost use Rattle.session_states.specs.Shared.{Shared, with_shelf};
ghost use Rattle.session_states.specs.States.{session, writer};
ghost use Rattle.session_states.specs.Steps.{Step};

use line_steps::Statements;

/// All that a job named is locked and read in turn before the job is due again, so that it isn't worked again for each need. The rest may
/// be let go at any need: so it is at the last one. For a room a line is named, locked and read, and its page is taken; the room itself is
/// made known at the end, of lines that are known to be absent. The locks are wanted, got or refused as the lock of any stage.
pub fn needs_are_read_in_turn<S: Statements>()
    ensures gathers { (s : ℕ) (c : Shared) (left : List Item) (total : ℕ) (standing : Standing) (known : Held) (spoken waits : Bool) (item : Item) (next : Need) (later : List Need) → IsFound S.stands c.word standing (uttered_of item) (knows known) (Missing next later) → Step S.stands s c (session left total (Writing (writer standing known spoken waits (Working item Out)))) c (session left total (Writing (writer standing known spoken waits (Gathering item (Locking next) later 0)))) [] }
    ensures more { (s : ℕ) (c : Shared) (shelf : Shelf) (left : List Item) (total : ℕ) (standing : Standing) (known new : Held) (spoken waits : Bool) (item : Item) (n : Need) (later : List Need) (place : ℕ) → KeepsOthers s c.shelf shelf → shelf.now ≡ c.shelf.now → shelf.seat s ≡ c.shelf.seat s → KeepsSpace c.shelf.space shelf.space → Learns s c.shelf n known new → KnowsMore known new → Step S.stands s c (session left total (Writing (writer standing known spoken waits (Gathering item (Reading n) later place)))) (with_shelf shelf c) (session left total (Writing (writer standing new spoken waits (Gathering item (Reading n) later place)))) [] }
    ensures read_on { (s : ℕ) (c : Shared) (shelf : Shelf) (left : List Item) (total : ℕ) (standing : Standing) (known new : Held) (spoken waits : Bool) (item : Item) (n m : Need) (later : List Need) (place : ℕ) → slice_get later place ≡ Some m → KeepsOthers s c.shelf shelf → shelf.now ≡ c.shelf.now → shelf.seat s ≡ c.shelf.seat s → KeepsSpace c.shelf.space shelf.space → Learns s c.shelf n known new → KnowsMore known new → Step S.stands s c (session left total (Writing (writer standing known spoken waits (Gathering item (Reading n) later place)))) (with_shelf shelf c) (session left total (Writing (writer standing new spoken waits (Gathering item (Locking m) later (place + 1))))) [] }
    ensures drops { (s : ℕ) (c : Shared) (left : List Item) (total : ℕ) (standing : Standing) (known : Held) (spoken waits : Bool) (item : Item) (n : Need) (later : List Need) (place : ℕ) → Step S.stands s c (session left total (Writing (writer standing known spoken waits (Gathering item (Locking n) later place)))) c (session left total (Writing (writer standing known spoken waits (Working item (Lacking n))))) [] }
    ensures drops_read { (s : ℕ) (c : Shared) (left : List Item) (total : ℕ) (standing : Standing) (known : Held) (spoken waits : Bool) (item : Item) (n : Need) (later : List Need) (place : ℕ) → Step S.stands s c (session left total (Writing (writer standing known spoken waits (Gathering item (Reading n) later place)))) c (session left total (Writing (writer standing known spoken waits (Working item (Fetching n))))) [] }
    ensures houses { (s : ℕ) (c : Shared) (left : List Item) (total : ℕ) (standing : Standing) (known : Held) (spoken waits : Bool) (item : Item) (room : Room) (key : Dbkey) (later : List Need) (place : ℕ) → key.area ≡ room.area → Step S.stands s c (session left total (Writing (writer standing known spoken waits (Gathering item (Locking (OfRoom room)) later place)))) c (session left total (Writing (writer standing known spoken waits (Gathering item (Housing room key) later place)))) [] }
    ensures lodging { (s : ℕ) (c : Shared) (shelf : Shelf) (left : List Item) (total : ℕ) (standing : Standing) (known new : Held) (spoken waits : Bool) (item : Item) (room : Room) (key : Dbkey) (later : List Need) (place : ℕ) → KeepsOthers s c.shelf shelf → shelf.now ≡ c.shelf.now → shelf.seat s ≡ c.shelf.seat s → KeepsSpace c.shelf.space shelf.space → Learns s c.shelf (Line key) known new → KnowsMore known new → Step S.stands s c (session left total (Writing (writer standing known spoken waits (Gathering item (Lodging room key) later place)))) (with_shelf shelf c) (session left total (Writing (writer standing new spoken waits (Gathering item (Lodging room key) later place)))) [] }
    ensures lodged_on { (s : ℕ) (c : Shared) (shelf : Shelf) (left : List Item) (total : ℕ) (standing : Standing) (known new : Held) (spoken waits : Bool) (item : Item) (room : Room) (key : Dbkey) (m : Need) (later : List Need) (place : ℕ) → slice_get later place ≡ Some m → KeepsOthers s c.shelf shelf → shelf.now ≡ c.shelf.now → shelf.seat s ≡ c.shelf.seat s → TakesAt key c.shelf.space shelf.space → Learns s c.shelf (Line key) known new → KnowsMore known new → Step S.stands s c (session left total (Writing (writer standing known spoken waits (Gathering item (Lodging room key) later place)))) (with_shelf shelf c) (session left total (Writing (writer standing new spoken waits (Gathering item (Locking m) later (place + 1))))) [] }
    ensures drops_lodging { (s : ℕ) (c : Shared) (left : List Item) (total : ℕ) (standing : Standing) (known : Held) (spoken waits : Bool) (item : Item) (room : Room) (key : Dbkey) (later : List Need) (place : ℕ) → Step S.stands s c (session left total (Writing (writer standing known spoken waits (Gathering item (Lodging room key) later place)))) c (session left total (Writing (writer standing known spoken waits (Working item (work.Lodging room key))))) [] }
{}
