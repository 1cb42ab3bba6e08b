//! The sessions of a run, of one origin.
ghost use Rattle.std.specs.Prelude.{◌≡◌, ◌≤◌, ◌<◌, ◌^◌, ◌&&◌, ℕ, All, [], length, map, not, false, is_some, true, IfOk, IfErr};
ghost use Rattle.rdb_account.specs.Events.{event_of};
ghost use Rattle.rdb_account.specs.Legal.{IsLegal};
ghost use Rattle.rdb_drive.specs.Boards.{Less};
ghost use Rattle.rdb_account.specs.Places.{place};
ghost use Rattle.line_store.specs.Seats.{Seat, outside};
ghost use Rattle.line_store.specs.Sights.{bare};
ghost use Rattle.lock_tree_laws.specs.Forest.{IsWhole};
ghost use Rattle.line_account.specs.session_stands.Sessions.{AreSeated};
ghost use Rattle.line_cluster.specs.Asleep.{sleeps};
ghost use Rattle.line_cluster.specs.Deaths.{CountsFaults, failures, is_device, is_stop};
ghost use Rattle.line_cluster.specs.Measured.{IsBounded};
ghost use Rattle.line_cluster.specs.Sound.{FollowsScripts, HasImages, IsLeft, IsOpenedBy, IsSession, MayFail, ShowsSpent, fresh_member, is_over_slot, is_unsound, stop_of};
ghost use Rattle.line_cluster.specs.Turned.{Came, DeathCame, HasNothingLeft, HaveAllEnded, HaveEnded, IsAtEnd, RecoveryCame, Rests};

use crate::allotments::Allotments;
use crate::origin::Origin;
use crate::sessions::{Core, Halt, Turn};
use lent_jobs::WorkedJob;
use lent_members::{LentMember, is_stopping, lend_at, take_back_at, takes_item};
use lent_values::{Loan, Naming, Opened, Worked};
use line_account::{Common, KEPT_EVENTS};
use line_store::LineStore;
use lock_needs::Need;
use lock_tree::Tree;
use rdb_account::{Event, Events};
use rdb_types::{Cause, Items, Level, NoMemory, Node, Session, Word};
use reached_changes::Reaches;
use reserved_locks::Reserves;
use session_jobs::{Job, Statements};
use session_states::WholeScript;
use std::alloc::Global;
use std::marker::{Model, PhantomData};
use vms_queues::Mode;

// A need that nobody has.
const NOBODYS: Need = Need {
    node: Node {
        level: Level::Journal,
        area: 0,
        at: 0,
        line: 0,
    },
    mode: Mode::NL,
};

/// The sessions of a run over a store of lines, each with its script, and their account.
#[derive(Drop)]
pub struct LineCluster<O: Origin + Naming, S: Statements, L: LineStore + Drop> {
    core: Core<O, S, L>,
    /// Whether the script of each session ends in a stop.
    stops: Vec<bool>,
}

/// What a run leaves: its events, its store, and why no session goes on, where that is so.
#[derive(Drop)]
pub struct Finished<L> {
    pub events: Events,
    pub store: L,
    pub halt: Option<Halt>,
}

impl<O: Origin + Naming, S: Statements, L: LineStore + Drop> Model for LineCluster<O, S, L> {
    ghost use Rattle.std.specs.Prelude.{◌-◌, map};
    ghost use Rattle.std.specs.Vec.{vec_len, vec_capacity};
    ghost use Rattle.std.specs.Coded.{codes};
    ghost use Rattle.rdo_ast.specs.contracts.syntax.Action as action_type;
    ghost use Rattle.rdb_account.specs.Events.{event_of};
    ghost use Rattle.line_account.specs.stage_steps.Scenes.{scene};
    ghost use Rattle.line_cluster.specs.Sound.{AreSound};
    ghost use Rattle.line_cluster.specs.Turned.{Sessions, sessions};

    ghost Value = { Sessions };

    ghost coded = { Prim.hlevel (codes, action_type.the_row.coded) };

    ghost view = { λ c. sessions c.core.members.items c.core.events.items c.core.allotments (L.sight c.core.common.store) c.core.common.tree c.core.halt };

    ghost invariant = { λ c. AreSound S.stands O.told O.opening O.faults O.sessions (scene c.core.common.word (L.sight c.core.common.store) c.core.common.tree) c.core.members.items (map event_of c.core.events.items) c.core.halt c.stops.items (vec_capacity c.core.events - vec_len c.core.events) };
}

// Sessions that have said nothing, and whether the script of each ends in a stop.
#[derive(Drop)]
struct Beginning<O: Naming, S: Statements> {
    members: Vec<LentMember<O, S>>,
    stops: Vec<bool>,
}

// A session of each script.
fn begin<O: Naming, S: Statements>(
    alloc: Global,
    scripts: Vec<WholeScript>,
) -> Result<Beginning<O, S>, NoMemory>
    requires short { All (λ script. length script.items < 2 ^ 32) scripts.items }
    ensures members { IfOk result (λ begun. begun.members.items ≡ map fresh_member scripts.items) }
    ensures stops { IfOk result (λ begun. begun.stops.items ≡ map stop_of scripts.items) }
{
    let mut members = Vec::new(alloc);
    let mut stops = Vec::new(alloc);
    for script in scripts {
        stops.push(script.stops)?;
        let left = script.items;
        let total = left.len() as u32;
        members.push(LentMember::new(left, total))?;
    }
    Ok(Beginning { members, stops })
}

impl<O: Origin + Naming, S: Reserves + Reaches, L: LineStore + Drop> LineCluster<O, S, L> {
    /// Sessions that have said nothing, over a store in which nobody has a transaction open. From here on there is room for the events
    /// of all deaths and recoveries. Where no memory is found the store is given back.
    pub fn start(
        alloc: Global,
        word: Word,
        store: L,
        scripts: Vec<WholeScript>,
        desk: Opened<Job>,
    ) -> Result<Self, L>
        requires desk { desk ≡ O.book }
        requires sessions { length scripts.items ≡ O.sessions }
        requires few { O.sessions ≤ 16 }
        requires scripts { FollowsScripts O.opening scripts.items }
        requires short { All (λ script. length script.items < 2 ^ 32) scripts.items }
        requires outside { (s : ℕ) → (L.sight store).stand s ≡ outside }
        requires mortal { MayFail O.opening }
        requires opened { O.told → IsOpenedBy S.stands O.opening O.faults word (L.sight store) }
        ensures events { IfOk result (λ c. c.events ≡ []) }
        ensures members { IfOk result (λ c. c.members ≡ map fresh_member scripts.items) }
        ensures going { IfOk result (λ c. c.halted ≡ false) }
        ensures back { IfErr result (λ it. it ≡ store) }
    {
        let Ok(Beginning { members, stops }) = begin(alloc, scripts) else {
            return Err(store);
        };
        let Ok(allotments) = Allotments::new(alloc) else {
            return Err(store);
        };
        let Ok(events) = Vec::with_capacity(alloc, KEPT_EVENTS) else {
            return Err(store);
        };
        Ok(LineCluster {
            core: Core {
                common: Common {
                    alloc,
                    word,
                    store,
                    tree: Tree::new(alloc),
                },
                members,
                desk: desk.named(),
                allotments,
                events,
                halt: None,
                of: PhantomData,
            },
            stops,
        })
    }

    // Whether the script of a session ends in a stop.
    fn ends_in_stop(&self, s: Session) -> bool
        requires session { IsSession O.sessions s.number }
        ensures { result ≡ O.opening.stops s.number }
    {
        self.stops[s.number as usize - 1]
    }

    /// A turn of a session: its next step, its death at the stop of its script or for want of memory, or whom it waits for.
    pub fn turn(&mut self, s: Session) -> Turn
        requires session { IsSession O.sessions s.number }
        ensures came { Came O.opening.stops s.number self.old self.new result }
        ensures nearer { result ≡ Turn.Moved → Less self.new.measure self.old.measure }
        ensures rests { O.told → Rests O.opening s.number self.old result }
    {
        let stops = self.ends_in_stop(s);
        self.core.turn(s, stops)
    }

    /// Lends the job of a session's statement, where that is to be worked: then the next turn of the session comes behind `take_back`.
    pub fn lend(&mut self, s: Session) -> Option<Loan<O, Job>>
        requires session { IsSession O.sessions s.number }
        ensures same { self.new ≡ self.old }
    {
        let at = s.number as usize - 1;
        if self.core.halt.is_some() {
            return None;
        }
        let core = &mut self.core;
        lend_at(
            &mut core.members,
            at,
            &mut core.desk,
            core.common.alloc,
            &core.common.word,
        )
    }

    /// Takes back what was made of the job of a session's statement. It is let go where it is of another job than the one that is out.
    pub fn take_back(&mut self, s: Session, worked: Worked<O, Job, WorkedJob<S>>)
        requires session { IsSession O.sessions s.number }
        ensures same { self.new ≡ self.old }
    {
        let at = s.number as usize - 1;
        take_back_at(&mut self.core.members, at, self.core.common.alloc, worked);
    }

    /// A session dies where it stands, unless it has nothing left to do. (It dies of a device or of a stop in its turn alone.) Takes no
    /// memory.
    pub fn die(&mut self, s: Session, cause: Cause)
        requires session { IsSession O.sessions s.number }
        requires mortal { (O.opening.may_die s.number cause && not (is_stop cause)) ≡ true }
        requires own { is_device cause ≡ false }
        ensures came { DeathCame O.opening.stops s.number cause self.old self.new }
    {
        let stops = self.ends_in_stop(s);
        self.core.die(s, stops, cause);
    }

    /// A step of the recovery of the first session that died.
    pub fn recover(&mut self) -> Turn
        ensures came { RecoveryCame self.old self.new result }
        ensures nearer { result ≡ Turn.Moved → Less self.new.measure self.old.measure }
    {
        self.core.recover()
    }

    /// Whether a session's next turn takes up an item of its script, or comes to the stop behind them.
    pub fn begins_item(&self, s: Session) -> bool
        requires session { IsSession O.sessions s.number }
    {
        let stops = self.ends_in_stop(s);
        let member = &self.core.members[s.number as usize - 1];
        takes_item(member) || is_stopping(member, stops)
    }

    /// Whether a session's next step is the barrier that makes its commit stable.
    pub fn is_at_barrier(&self, s: Session) -> bool {
        self.core.common.store.is_at_barrier(s)
    }

    /// Whether a session sleeps: its turn would be Asleep.
    pub fn is_asleep(&self, s: Session) -> bool
        requires session { IsSession O.sessions s.number }
        ensures { result ≡ sleeps self.now s.number }
    {
        self.core.is_asleep(s)
    }

    /// Whether no session goes on.
    pub fn is_halted(&self) -> bool
        ensures { result ≡ self.now.halted }
    {
        self.core.halt.is_some()
    }

    /// What happened so far.
    pub fn events(&self) -> &[Event]
        ensures { result.now ≡ self.now.events }
    {
        &self.core.events
    }

    /// What is true of the sessions at every moment.
    pub fn facts(&self)
        ensures legal { O.told → IsLegal O.opening (map event_of self.now.events) }
        ensures count { length self.now.members ≡ O.sessions }
        ensures seated { self.now.halted ≡ false → (stand : ℕ → Seat) × AreSeated stand self.now.locks self.now.members }
        ensures locks { IsWhole self.now.locks }
        ensures bounds { IsBounded self.now.measure }
        ensures over { O.told → self.now.halted ≡ false → (s : ℕ) → 1 ≤ s → IsAtEnd O.opening.stops s self.now → HasNothingLeft O.opening (place O.opening (map event_of self.now.events)) s }
        ensures whole { O.told → self.now.halted ≡ false → HaveEnded O.opening.stops self.now.members → HaveAllEnded O.opening O.sessions (map event_of self.now.events) }
    {
        // (so the tree is whole; nobody is owner 0, so nothing is gone through)
        let _held = self.core.common.tree.holds(0, NOBODYS);
        self.core.count();
    }

    /// The run is over.
    pub fn end(self) -> Finished<L>
        ensures events { result.events ≡ self.events }
        ensures left { O.told → self.halted ≡ false → IsLeft S.stands O.opening (L.sight result.store) (map event_of self.events) }
        ensures images { O.told → HasImages S.stands O.opening (L.sight result.store) (map event_of self.events) }
        ensures halt { is_some result.halt ≡ self.halted }
        ensures faults { O.told → CountsFaults O.faults (failures (map event_of self.events) result.halt) (L.sight result.store) }
        ensures agrees { O.told → is_unsound result.halt ≡ false }
        ensures spent { O.told → is_over_slot result.halt ≡ true → ShowsSpent (L.sight result.store) }
        ensures outside { self.halted ≡ false → HaveEnded O.opening.stops self.members → (s : ℕ) → bare ((L.sight result.store).stand s) ≡ outside }
    {
        let LineCluster { core, stops: _ } = self;
        let halt = core.halt;
        Finished {
            events: Items::from_vec(core.events),
            store: core.common.store,
            halt,
        }
    }
}
