use crate::{ChangeStop, CommitStop, Fault, Progress, ReadStop, Stepped};
use area_files::AreaFull;
use line_view::{Known, Write};
use rdb_outside::{Dbkey, Moment, NoMemory, Session};
use std::alloc::Global;

/// The committed lines of a database, what the open transactions wrote, and the lines at each reader's start.
///
/// A begin, a change, a commit, a rollback and a death only say what is to be done, and make no device call. What they begin is done
/// by `step`, with one write or barrier a step at most, until it is told to be done. Whoever commits is alone in that.
pub trait LineStore {
    ghost use Rattle.std.specs.Prelude.{◌≡◌, ℕ, Ok, [], IfOk, IfErr, OnOk, OnErr, true, false};
    ghost use Rattle.line_view.specs.Knowledge.{IsInOrder, Agrees as AgreesWith};
    ghost use Rattle.line_view.specs.Held.{knows};
    ghost use Rattle.area_files.specs.rdb_page.Page.{IsOwner, IsClass};
    ghost use Rattle.line_store.specs.declared.answers.Progress.TheVariants.{Done, More};
    ghost use Rattle.line_store.specs.declared.answers.Stepped.TheVariants as stepped;
    ghost use Rattle.line_store.specs.Seats.{outside, beginning, writing, changing, prepared, committing, rolling_back, reading, copying, IsMember, IsBackupNumber, IsWriting, IsPrepared, IsAtRest, IsReader, IsUnderWay, IsAlive, is_committing, died};
    ghost use Rattle.line_store.specs.Shelves.{Shelf, seen_by};
    ghost use Rattle.line_store.specs.Rooms.{IsRoom, IsFull, Takes, IsTaken};
    ghost use Rattle.line_store.specs.Calls.{Moves, Changes, MayStopChange, MayStopCommit};
    ghost use Rattle.line_store.specs.Sights.{Sight, Agrees, Counts, Stands, Does, Stays, BeginsReading, BeginsCopying, IsBackedBy, Prepares, GivesBack, BeginsCommit, RollsBack, Dies, Reads, LearnsLine, LearnsArea, LearnsSome, Steps, IsLess, MayAnswer, MayBeOpened, stepped_to, StandsAlone};

    /// What the store shows of what it holds.
    ghost sight: { Self → Sight };

    /// Its memory knows where sessions stand.
    ghost agrees: { (store : Self) → Agrees (sight store) };

    /// It knows how much is left to do for each.
    ghost counts: { (store : Self) → Counts (sight store) };

    /// A crash leaves what is committed, or has the commit that is under way.
    ghost stands: { (store : Self) → Stands (sight store) };

    /// A store can be opened from what a crash leaves.
    ghost opens: { (store : Self) → MayBeOpened (sight store) };

    /// Begins a read-write transaction.
    fn begin(&mut self, s: Session)
        requires member { IsMember s.number }
        requires outside { (sight self.old).stand s.number ≡ outside }
        ensures does { Does s.number beginning (Moves s.number beginning) (sight self.old) (sight self.new) };

    /// Begins a read-only transaction, which sees the lines that are committed now.
    fn begin_reading(&mut self, s: Session) -> Result<(), NoMemory>
        requires member { IsMember s.number }
        requires outside { (sight self.old).stand s.number ≡ outside }
        ensures ok { OnOk result (Does s.number (reading []) (BeginsReading s.number) (sight self.old) (sight self.new)) }
        ensures err { OnErr result (Stays s.number (sight self.old) (sight self.new)) };

    /// Begins a read-only transaction, whose lines its steps copy into the backup of this number.
    fn begin_copy(&mut self, s: Session, number: u32) -> Result<(), NoMemory>
        requires member { IsMember s.number }
        requires outside { (sight self.old).stand s.number ≡ outside }
        requires number { IsBackupNumber number }
        ensures ok { OnOk result (Does s.number (copying number []) (BeginsCopying s.number number) (sight self.old) (sight self.new)) }
        ensures err { OnErr result (Stays s.number (sight self.old) (sight self.new)) };

    /// Ends a read-only transaction.
    fn end_reading(&mut self, s: Session)
        requires member { IsMember s.number }
        requires reader { IsReader ((sight self.old).stand s.number) }
        ensures does { Does s.number outside (Moves s.number outside) (sight self.old) (sight self.new) };

    /// Reads a line as a session's transaction sees it.
    fn learn_line(
        &mut self,
        s: Session,
        key: Dbkey,
        known: &mut Known,
    ) -> Result<Progress, ReadStop>
        requires member { IsMember s.number }
        requires seat { IsAtRest ((sight self.old).stand s.number) }
        ensures done { result ≡ Ok Done → LearnsLine (sight self.old) s.number key known.old known.new }
        ensures not_yet { (result ≡ Ok Done → ⊥) → known.new ≡ known.old }
        ensures knows { (h : Shelf) → (sight self.old).shows h → IsInOrder (seen_by s.number h)
            → AgreesWith (knows known.old) (seen_by s.number h) → AgreesWith (knows known.new) (seen_by s.number h) }
        ensures read { Does s.number ((sight self.old).stand s.number) (Reads s.number result) (sight self.old) (sight self.new) }
        ensures less { result ≡ Ok More → IsLess s.number (sight self.old) (sight self.new) };

    /// Reads the present lines of a logical area as a session's transaction sees them. Some of them are known before all are.
    fn learn_area(&mut self, s: Session, area: u32, known: &mut Known) -> Result<Progress, ReadStop>
        requires member { IsMember s.number }
        requires seat { IsAtRest ((sight self.old).stand s.number) }
        ensures done { result ≡ Ok Done → LearnsArea (sight self.old) s.number area known.old known.new }
        ensures not_yet { (result ≡ Ok Done → ⊥) → LearnsSome (sight self.old) s.number area known.old known.new }
        ensures knows { (h : Shelf) → (sight self.old).shows h → IsInOrder (seen_by s.number h)
            → AgreesWith (knows known.old) (seen_by s.number h) → AgreesWith (knows known.new) (seen_by s.number h) }
        ensures read { Does s.number ((sight self.old).stand s.number) (Reads s.number result) (sight self.old) (sight self.new) }
        ensures less { result ≡ Ok More → IsLess s.number (sight self.old) (sight self.new) };

    /// A line on which a session's transaction may put a new one of this class: one behind `from` of a page that is taken, else the first of a new page. Its page is still to be taken.
    fn room(
        &self,
        s: Session,
        area: u32,
        class: u16,
        from: Option<Dbkey>,
    ) -> Result<Dbkey, AreaFull>
        requires member { IsMember s.number }
        requires writing { IsWriting ((sight self.now).stand s.number) }
        requires area { (file : ℕ) × IsOwner file area }
        requires class { IsClass class }
        ensures area { IfOk result (λ key. key.area ≡ area) }
        ensures found { IfOk result (λ key. (h : Shelf) → (sight self.now).shows h → IsRoom h s.number area from key) }
        ensures full { IfErr result (λ full. (h : Shelf) → (sight self.now).shows h → IsFull h s.number area full.limit) };

    /// Takes the page of a room for the room's logical area and class. Where the page was taken otherwise before, it answers that this is no room, and nothing changes.
    fn take_room(&mut self, s: Session, key: Dbkey, class: u16) -> Result<bool, NoMemory>
        requires area { (file : ℕ) × IsOwner file key.area }
        requires class { IsClass class }
        ensures taken { result ≡ Ok true → Does s.number ((sight self.old).stand s.number) (Takes key) (sight self.old) (sight self.new) }
        ensures refused { (result ≡ Ok true → ⊥) → Stays s.number (sight self.old) (sight self.new) }
        ensures other { result ≡ Ok false → (h : Shelf) → (sight self.old).shows h → IsTaken key h.space };

    /// Begins to lay a statement's writes over those of its transaction.
    fn change(&mut self, s: Session, writes: &[Write]) -> Result<(), ChangeStop>
        requires member { IsMember s.number }
        requires seat { IsWriting ((sight self.old).stand s.number) }
        ensures ok { OnOk result (Does s.number (changing []) (Changes s.number writes.now) (sight self.old) (sight self.new)) }
        ensures err { OnErr result (Stays s.number (sight self.old) (sight self.new)) }
        ensures cause { IfErr result (λ stop. (h : Shelf) → (sight self.old).shows h → MayStopChange h s.number writes.now stop) };

    /// Takes the room and the memory of a commit, before the journal's lock is wanted. Others may be prepared at once, and commit first.
    fn prepare(&mut self, s: Session) -> Result<(), CommitStop>
        requires member { IsMember s.number }
        requires writing { IsWriting ((sight self.old).stand s.number) }
        ensures ok { OnOk result (Does s.number (prepared []) (Prepares s.number) (sight self.old) (sight self.new)) }
        ensures err { OnErr result (Stays s.number (sight self.old) (sight self.new)) }
        ensures cause { IfErr result (λ stop. (h : Shelf) → (sight self.old).shows h → MayStopCommit h s.number stop) };

    /// Gives back what was taken for a commit: the transaction goes on.
    fn give_back(&mut self, s: Session)
        requires member { IsMember s.number }
        requires prepared { IsPrepared ((sight self.old).stand s.number) }
        ensures does { Does s.number (writing []) (GivesBack s.number) (sight self.old) (sight self.new) };

    /// Begins to commit what is prepared. It can't be refused, and the steps behind it find neither room nor memory wanting.
    fn commit(&mut self, s: Session)
        requires member { IsMember s.number }
        requires prepared { IsPrepared ((sight self.old).stand s.number) }
        requires alone { StandsAlone s.number (sight self.old) }
        ensures does { Does s.number (committing []) (BeginsCommit s.number) (sight self.old) (sight self.new) };

    /// Begins to undo a transaction, which wants no memory.
    fn roll_back(&mut self, s: Session)
        requires member { IsMember s.number }
        requires seat { IsWriting ((sight self.old).stand s.number) }
        ensures does { Does s.number (rolling_back []) (RollsBack s.number) (sight self.old) (sight self.new) };

    /// The session dies, wherever it stands. Its steps are then those of its recovery.
    fn die(&mut self, s: Session)
        requires member { IsMember s.number }
        requires alive { IsAlive ((sight self.old).stand s.number) }
        ensures does { Does s.number (died ((sight self.old).stand s.number)) (Dies s.number) (sight self.old) (sight self.new) };

    /// One step of what is under way for a session. It wants no memory.
    fn step(&mut self, s: Session) -> Result<Stepped, Fault>
        requires member { IsMember s.number }
        requires seat { IsUnderWay ((sight self.old).stand s.number) }
        ensures answers { MayAnswer ((sight self.old).stand s.number) result }
        ensures comes { Does s.number (stepped_to ((sight self.old).stand s.number) result) (Steps s.number result) (sight self.old) (sight self.new) }
        ensures less { result ≡ Ok stepped.More → IsLess s.number (sight self.old) (sight self.new) }
        ensures backed { result ≡ Ok stepped.Done → IsBackedBy s.number (sight self.old) (sight self.new) };

    /// Whether the session's next step is the barrier that makes its commit stable.
    fn is_at_barrier(&self, s: Session) -> bool
        ensures { result ≡ true → is_committing ((sight self.now).stand s.number) ≡ true };

    /// The moment. Telling it is no device call.
    fn moment(&self) -> Moment
        ensures { (h : Shelf) → (sight self.now).shows h → result.number ≡ h.clock.time };
}
