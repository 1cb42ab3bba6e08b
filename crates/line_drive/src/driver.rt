//! The sessions as drivers see them.
ghost use Rattle.std.specs.Prelude.{◌≡◌, ◌≤◌, ℕ, [], drop, length, map, false, true, is_some};
ghost use Rattle.rdb_account.specs.Events.{event_of};
ghost use Rattle.rdb_account.specs.Legal.{IsLegal};
ghost use Rattle.rdb_drive.specs.Boards.{IsSession, AllEnded, answers};
ghost use Rattle.rdb_drive.specs.Steps.{StepOf};
ghost use Rattle.line_store.specs.Seats.{outside};
ghost use Rattle.line_store.specs.Sights.{bare};
ghost use Rattle.line_cluster.specs.Deaths.{CountsFaults, failures};
ghost use Rattle.line_cluster.specs.Sound.{HasImages, IsLeft, ShowsSpent, is_over_slot, is_unsound};
ghost use Rattle.line_cluster.specs.Turned.{HaveAllEnded};
ghost use Rattle.line_drive.specs.Boards.{board_of, marks_of};
ghost use Rattle.line_drive.specs.Turns.{IsHeardOf, step_for};

use lent_jobs::{Remembering, Remembers, WorkedJob};
use lent_values::{Loan, Naming, Worked};
use line_cluster::{Finished, LineCluster, Origin, Turn};
use line_store::LineStore;
use rdb_account::Event;
use rdb_drive::{Driven, Point, Step};
use rdb_types::{Cause, Session};
use reached_changes::Reaches;
use reserved_locks::Reserves;
use session_jobs::{Job, Statements};
use std::marker::{Model, Send};

/// Sessions are numbered from 1 to 16.
const NUMBERS: usize = 17;

/// The sessions of a run, with how many answers each was given.
#[derive(Drop)]
pub struct LineDriver<O: Origin + Naming, S: Statements, L: LineStore + Drop> {
    cluster: LineCluster<O, S, L>,
    answers: [u64; NUMBERS],
}

impl<O: Origin + Naming, S: Statements, L: LineStore + Drop> Model for LineDriver<O, S, L> {
    ghost use Rattle.std.specs.Coded.{codes};
    ghost use Rattle.rdo_ast.specs.contracts.syntax.Action as action_type;
    ghost use Rattle.line_cluster.specs.Turned.{Sessions};
    ghost use Rattle.line_drive.specs.Turns.{IsDriven};

    ghost Value = { Sessions };

    ghost coded = { Prim.hlevel (codes, action_type.the_row.coded) };

    ghost view = { λ d. d.cluster };

    ghost invariant = { λ d. IsDriven O.sessions d.answers d.cluster };
}

// How many of the events behind the first so many are answers.
fn answers_behind(events: &[Event], from: usize) -> u64
    requires { from ≤ length events.now }
    ensures { result ≡ answers (marks_of (drop from events.now)) }
{
    let mut count = 0;
    for at in from..events.len() {
        if let Event::Said(..) = &events[at] {
            count += 1;
        }
    }
    count
}

// What a driver hears of a turn. Of one in which its session died it hears that it moved.
fn step_of<P: Drop>(turn: Turn) -> Step<P>
    ensures { result ≡ step_for turn }
{
    match turn {
        Turn::Moved | Turn::Died => Step::Moved,
        Turn::Asleep(_) => Step::Asleep,
        Turn::Frozen => Step::Frozen,
        Turn::Ended => Step::Ended,
        Turn::Stopped => Step::Stopped,
    }
}

// What a driver hears of a turn in which so many answers were given. Where it moved without any, the session's job is lent, if that is
// to be worked.
fn lend_behind<O: Origin + Naming, S: Reserves + Reaches, L: LineStore + Drop>(
    cluster: &mut LineCluster<O, S, L>,
    s: Session,
    turn: Turn,
    count: u64,
) -> Step<Loan<O, Job>>
    requires session { IsSession O.sessions s.number }
    ensures same { cluster.new ≡ cluster.old }
    ensures heard { IsHeardOf turn count result }
{
    if count == 0 {
        if let Turn::Moved = turn {
            if let Some(loan) = cluster.lend(s) {
                return Step::Compute(loan);
            }
        }
    }
    step_of(turn)
}

impl<O: Origin + Naming, S: Reserves + Reaches, L: LineStore + Drop> LineDriver<O, S, L> {
    /// Sessions of which nothing happened yet.
    pub fn new(cluster: LineCluster<O, S, L>) -> Self
        requires fresh { cluster.events ≡ [] }
        requires few { O.sessions ≤ 16 }
        ensures { result ≡ cluster }
    {
        LineDriver {
            cluster,
            answers: [0; NUMBERS],
        }
    }

    // A turn of a session. Its answers are counted, and its job is lent where that is to be worked.
    fn turn(&mut self, s: Session) -> Step<Loan<O, Job>>
        requires session { IsSession O.sessions s.number }
        ensures step { StepOf O.sessions s.number (board_of O.told O.opening self.old) (board_of O.told O.opening self.new) result }
    {
        self.cluster.facts();
        if self.cluster.is_halted() {
            return Step::Stopped;
        }
        let before = self.cluster.events().len();
        let turn = self.cluster.turn(s);
        self.cluster.facts();
        let count = answers_behind(self.cluster.events(), before);
        self.answers[s.number as usize] += count;
        lend_behind(&mut self.cluster, s, turn, count)
    }

    /// What is true of the sessions at every moment.
    pub fn facts(&self)
        ensures legal { O.told → IsLegal O.opening (map event_of self.now.events) }
        ensures whole { O.told → self.now.halted ≡ false → AllEnded O.sessions (board_of O.told O.opening self.now) →
            HaveAllEnded O.opening O.sessions (map event_of self.now.events) }
    {
        self.cluster.facts();
    }

    /// The run is over.
    pub fn end(self) -> Finished<L>
        ensures events { result.events ≡ self.events }
        ensures left { O.told → self.halted ≡ false → IsLeft S.stands O.opening (L.sight result.store) (map event_of self.events) }
        ensures images { O.told → HasImages S.stands O.opening (L.sight result.store) (map event_of self.events) }
        ensures halt { is_some result.halt ≡ self.halted }
        ensures faults { O.told → CountsFaults O.faults (failures (map event_of self.events) result.halt) (L.sight result.store) }
        ensures agrees { O.told → is_unsound result.halt ≡ false }
        ensures spent { O.told → is_over_slot result.halt ≡ true → ShowsSpent (L.sight result.store) }
        ensures outside { self.halted ≡ false → AllEnded O.sessions (board_of O.told O.opening self) → (s : ℕ) → bare ((L.sight result.store).stand s) ≡ outside }
    {
        let LineDriver {
            cluster,
            answers: _,
        } = self;
        cluster.facts();
        cluster.end()
    }
}

impl<
    O: Origin + Naming + Send,
    S: Reserves + Reaches + Remembers + Send,
    L: LineStore + Drop,
> Driven for LineDriver<O, S, L>
where
    S::Memory: Send,
{
    ghost use Rattle.line_drive.specs.Boards.{board_of, mortals_of};

    type Piece = Loan<O, Job>;

    type Done = Worked<O, Job, WorkedJob<S>>;

    type Bench = Remembering<S>;

    ghost board = { λ d. board_of O.told O.opening d };

    ghost sessions = { O.sessions };

    ghost mortals = { mortals_of O.opening O.sessions };

    fn is_asleep(&self, s: Session) -> bool {
        self.cluster.is_asleep(s)
    }

    fn point(&self, s: Session) -> Point {
        if self.cluster.begins_item(s) {
            let number = self.answers[s.number as usize].wrapping_add(1);
            return Point::Statement(number.min(u32::MAX as u64) as u32);
        }
        if self.cluster.is_at_barrier(s) {
            return Point::Barrier;
        }
        Point::Other
    }

    fn next(&mut self, s: Session) -> Step<Loan<O, Job>> {
        self.turn(s)
    }

    fn bench() -> Remembering<S> {
        Remembering::new()
    }

    fn work(piece: Loan<O, Job>, bench: &mut Remembering<S>) -> Worked<O, Job, WorkedJob<S>> {
        piece.work_by(bench)
    }

    fn give(&mut self, s: Session, done: Worked<O, Job, WorkedJob<S>>) -> Step<Loan<O, Job>> {
        self.cluster.take_back(s, done);
        self.turn(s)
    }

    fn die(&mut self, s: Session) {
        self.cluster.facts();
        self.cluster.die(s, Cause::Gate);
        self.cluster.facts();
    }

    fn recover_step(&mut self) -> Step<Loan<O, Job>> {
        self.cluster.facts();
        if self.cluster.is_halted() {
            return Step::Stopped;
        }
        let turn = self.cluster.recover();
        self.cluster.facts();
        step_of(turn)
    }

    fn answered(&self, s: Session) -> u64 {
        self.answers[s.number as usize]
    }
}
