// A statement of a read-write transaction is worked.
ghost use Rattle.std.specs.Prelude.{◌≡◌, ◌≤◌, ◌<◌, ◌+◌, ◌∷◌, ℕ, Bool, List, [], Some, None, slice_get};
ghost use Rattle.rdo_ast.specs.declared.reply.Standing.{Standing};
ghost use Rattle.rdo_ast.specs.declared.syntax.Item.{Item};
ghost use Rattle.line_view.specs.Held.{Held};
ghost use Rattle.session_states.specs.States.{session, writer};
ghost use Rattle.session_measure.specs.Weights.{Beside, Falls};
ghost use Rattle.session_states.specs.declared.stage.Phase.TheVariants.{Writing};
ghost use Rattle.rdb_types.specs.declared.keys.Dbkey.{Dbkey};
ghost use Rattle.lock_needs.specs.declared.need.Need.{Need as LockNeed};
ghost use Rattle.lock_needs.specs.declared.party.OpenWant.{OpenWant};
ghost use Rattle.lock_tree_laws.specs.Forest.{opened_of};
ghost use Rattle.line_view.specs.declared.need.Need.{Need};
ghost use Rattle.line_view.specs.declared.need.Room.{Room};
ghost use Rattle.session_jobs.specs.declared.jobs.TxRecord.{TxRecord};
ghost use Rattle.session_states.specs.declared.stage.Work.TheVariants.{Due, Out, Lacking, Housing, Fetching, Lodging};
ghost use Rattle.session_states.specs.declared.stage.Gather.TheVariants.{Locking, Housing as HousingOf, Reading as ReadingOf, Lodging as LodgingOf};
ghost use Rattle.session_states.specs.declared.stage.Laying.TheVariants.{Claiming, Changing};
ghost use Rattle.session_states.specs.declared.stage.Stage.{Stage};
ghost use Rattle.session_states.specs.declared.stage.Stage.TheVariants.{Between, Working, Gathering, Reserving, Saying};
ghost use Rattle.session_states.specs.Locks.{lock_of};
ghost use Rattle.session_states.specs.Turns.{got};

/// A statement that is taken up comes nearer to its reply with each step: at each round of its work, in which its job is handed out once,
/// with one round fewer; within a round, and as its record is locked and laid, by what is done.
pub fn statements_go_on()
    ensures takes { (k l s : ℕ) (c : Beside) (item : Item) (left : List Item) (total : ℕ) (standing : Standing) (known : Held) (spoken waits : Bool) → Falls k l c c s (session (item ∷ left) total (Writing (writer standing known spoken waits Between))) (session left total (Writing (writer standing known spoken waits (Working item Due)))) }
    ensures hands_out { (k l s : ℕ) (c : Beside) (item : Item) (left : List Item) (total : ℕ) (standing : Standing) (known : Held) (spoken waits : Bool) → l < k → Falls k l c c s (session left total (Writing (writer standing known spoken waits (Working item Due)))) (session left total (Writing (writer standing known spoken waits (Working item Out)))) }
    ensures done { (k s : ℕ) (c : Beside) (item : Item) (left : List Item) (total : ℕ) (standing : Standing) (known : Held) (spoken waits : Bool) (r : TxRecord) → Falls k k c c s (session left total (Writing (writer standing known spoken waits (Working item Out)))) (session left total (Writing (writer standing known spoken waits (Saying item r (Claiming 0))))) }
    ensures reserves { (k s : ℕ) (c : Beside) (item : Item) (left : List Item) (total : ℕ) (standing : Standing) (known : Held) (spoken waits : Bool) (r : TxRecord) (locks : List LockNeed) → Falls k k c c s (session left total (Writing (writer standing known spoken waits (Working item Out)))) (session left total (Writing (writer standing known spoken waits (Reserving item r locks 0)))) }
    ensures reserved { (k s : ℕ) (c : Beside) (item : Item) (left : List Item) (total : ℕ) (standing : Standing) (known : Held) (spoken waits : Bool) (r : TxRecord) (locks : List LockNeed) (place : ℕ) → Falls k k c c s (session left total (Writing (writer standing known spoken waits (Reserving item r locks place)))) (session left total (Writing (writer standing known spoken waits (Saying item r (Claiming 0))))) }
    ensures lacking { (k s : ℕ) (c : Beside) (item : Item) (left : List Item) (total : ℕ) (standing : Standing) (known : Held) (spoken waits : Bool) (n : Need) → Falls k k c c s (session left total (Writing (writer standing known spoken waits (Working item Out)))) (session left total (Writing (writer standing known spoken waits (Working item (Lacking n))))) }
    ensures gathers { (k s : ℕ) (c : Beside) (item : Item) (left : List Item) (total : ℕ) (standing : Standing) (known : Held) (spoken waits : Bool) (n : Need) (later : List Need) → Falls k k c c s (session left total (Writing (writer standing known spoken waits (Working item Out)))) (session left total (Writing (writer standing known spoken waits (Gathering item (Locking n) later 0)))) }
    ensures read_on { (k s : ℕ) (c d : Beside) (item : Item) (left : List Item) (total : ℕ) (standing : Standing) (known new : Held) (spoken waits : Bool) (n m : Need) (later : List Need) (place : ℕ) → slice_get later place ≡ Some m → Falls k k c d s (session left total (Writing (writer standing known spoken waits (Gathering item (ReadingOf n) later place)))) (session left total (Writing (writer standing new spoken waits (Gathering item (Locking m) later (place + 1))))) }
    ensures housed { (k s : ℕ) (c : Beside) (item : Item) (left : List Item) (total : ℕ) (standing : Standing) (known : Held) (spoken waits : Bool) (n : Need) (room : Room) (key : Dbkey) (later : List Need) (place : ℕ) → Falls k k c c s (session left total (Writing (writer standing known spoken waits (Gathering item (Locking n) later place)))) (session left total (Writing (writer standing known spoken waits (Gathering item (HousingOf room key) later place)))) }
    ensures lodged_on { (k s : ℕ) (c d : Beside) (item : Item) (left : List Item) (total : ℕ) (standing : Standing) (known new : Held) (spoken waits : Bool) (room : Room) (key : Dbkey) (m : Need) (later : List Need) (place : ℕ) → slice_get later place ≡ Some m → Falls k k c d s (session left total (Writing (writer standing known spoken waits (Gathering item (LodgingOf room key) later place)))) (session left total (Writing (writer standing new spoken waits (Gathering item (Locking m) later (place + 1))))) }
    ensures drops_lodging { (k s : ℕ) (c : Beside) (item : Item) (left : List Item) (total : ℕ) (standing : Standing) (known : Held) (spoken waits : Bool) (room : Room) (key : Dbkey) (later : List Need) (place : ℕ) → Falls k k c c s (session left total (Writing (writer standing known spoken waits (Gathering item (LodgingOf room key) later place)))) (session left total (Writing (writer standing known spoken waits (Working item (Lodging room key))))) }
    ensures drops { (k s : ℕ) (c : Beside) (item : Item) (left : List Item) (total : ℕ) (standing : Standing) (known : Held) (spoken waits : Bool) (n : Need) (later : List Need) (place : ℕ) → Falls k k c c s (session left total (Writing (writer standing known spoken waits (Gathering item (Locking n) later place)))) (session left total (Writing (writer standing known spoken waits (Working item (Lacking n))))) }
    ensures drops_read { (k s : ℕ) (c : Beside) (item : Item) (left : List Item) (total : ℕ) (standing : Standing) (known : Held) (spoken waits : Bool) (n : Need) (later : List Need) (place : ℕ) → Falls k k c c s (session left total (Writing (writer standing known spoken waits (Gathering item (ReadingOf n) later place)))) (session left total (Writing (writer standing known spoken waits (Working item (Fetching n))))) }
    ensures houses { (k s : ℕ) (c : Beside) (item : Item) (left : List Item) (total : ℕ) (standing : Standing) (known : Held) (spoken waits : Bool) (n : Need) (room : Room) (key : Dbkey) → Falls k k c c s (session left total (Writing (writer standing known spoken waits (Working item (Lacking n))))) (session left total (Writing (writer standing known spoken waits (Working item (Housing room key))))) }
    ensures more { (k s : ℕ) (c d : Beside) (left : List Item) (total : ℕ) (standing : Standing) (known new : Held) (spoken waits : Bool) (stage : Stage) → opened_of d.locks s ≡ opened_of c.locks s → d.steps s < c.steps s → Falls k k c d s (session left total (Writing (writer standing known spoken waits stage))) (session left total (Writing (writer standing new spoken waits stage))) }
    ensures read { (k s : ℕ) (c d : Beside) (item : Item) (left : List Item) (total : ℕ) (standing : Standing) (known new : Held) (spoken waits : Bool) (n : Need) → Falls k k c d s (session left total (Writing (writer standing known spoken waits (Working item (Fetching n))))) (session left total (Writing (writer standing new spoken waits (Working item Due)))) }
    ensures lodged { (k s : ℕ) (c d : Beside) (item : Item) (left : List Item) (total : ℕ) (standing : Standing) (known new : Held) (spoken waits : Bool) (room : Room) (key : Dbkey) → Falls k k c d s (session left total (Writing (writer standing known spoken waits (Working item (Lodging room key))))) (session left total (Writing (writer standing new spoken waits (Working item Due)))) }
    ensures laid { (k s : ℕ) (c d : Beside) (item : Item) (left : List Item) (total : ℕ) (standing : Standing) (known new : Held) (spoken waits : Bool) (r : TxRecord) (place : ℕ) → Falls k k c d s (session left total (Writing (writer standing known spoken waits (Saying item r (Claiming place))))) (session left total (Writing (writer standing new spoken waits (Saying item r Changing)))) }
{}

/// A want that opens, and a lock that is got, bring a session nearer.
pub fn locks_come_nearer()
    ensures opens { (k s : ℕ) (c d : Beside) (left : List Item) (total : ℕ) (standing : Standing) (known : Held) (spoken waits : Bool) (stage : Stage) (w : OpenWant) → opened_of c.locks s ≡ None → opened_of d.locks s ≡ Some w → Falls k k c d s (session left total (Writing (writer standing known spoken waits stage))) (session left total (Writing (writer standing known spoken waits stage))) }
    ensures got_it { (k s : ℕ) (c d : Beside) (left : List Item) (total : ℕ) (standing : Standing) (known : Held) (spoken waits : Bool) (stage : Stage) (n : LockNeed) → lock_of stage ≡ Some n → Falls k k c d s (session left total (Writing (writer standing known spoken waits stage))) (session left total (Writing (writer standing known spoken waits (got stage)))) }
{}
