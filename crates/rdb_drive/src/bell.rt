ghost use Rattle.std.specs.Prelude.{◌≡◌, ◌≤◌, ℕ, Contains, false, slice_index_or, true};
ghost use Rattle.std.specs.Sync.Mutex.{mutex_guard_value};
ghost use Rattle.rdb_drive.specs.Boards.{IsSession};
ghost use Rattle.rdb_drive.specs.Steps.{DeathOf, RecoveryOf, StepOf};
ghost use Rattle.rdb_drive.specs.Bells.{AreAsleep, AreSessions, Waits};
ghost use Rattle.rdb_drive.specs.declared.order.TheConstants.{MOST_SESSIONS};

use crate::driven::{Driven, Point, Step};
use crate::order::MOST_SESSIONS;
use rdb_types::Session;
use std::array;
use std::sync::{Condvar, MutexGuard, Wait};

// Sessions are numbered from 1.
const NUMBERS: usize = MOST_SESSIONS as usize + 1;

/// Where sessions that sleep wait, each at a bell of its own, until somebody rings it.
#[derive(Drop)]
pub(crate) struct Bells {
    condvars: [Condvar; NUMBERS],
}

/// What the threads share: what they drive, and who waits at a bell. Whoever does is asleep, so that no ring is owed.
pub(crate) struct Shared<X: Driven> {
    driven: X,
    marks: [bool; NUMBERS],
    ghost few: { X.sessions ≤ MOST_SESSIONS },
    ghost sessions: { AreSessions X.sessions marks },
    ghost asleep: { AreAsleep (X.board driven).asleep marks },
}

impl<X: Driven> Shared<X> {
    /// Nobody waits yet.
    pub(crate) fn new(driven: X) -> Shared<X>
        requires { X.sessions ≤ MOST_SESSIONS }
    {
        Shared {
            driven,
            marks: [false; NUMBERS],
        }
    }

    /// What was driven.
    pub(crate) fn end(self) -> X {
        let Shared { driven, marks: _ } = self;
        driven
    }

    pub(crate) fn point(&self, s: Session) -> Point
        requires { IsSession X.sessions s.number }
    {
        self.driven.point(s)
    }

    /// Gives what was worked, or makes the next step. A halt is rung for all.
    pub(crate) fn step(
        &mut self,
        s: Session,
        done: Option<X::Done>,
        bells: &Bells,
    ) -> Step<X::Piece>
        requires { IsSession X.sessions s.number }
        ensures { StepOf X.sessions s.number (X.board self.old.driven) (X.board self.new.driven) result }
    {
        let step = match done {
            Some(value) => self.driven.give(s, value),
            None => self.driven.next(s),
        };
        let is_halt = matches!(&step, Step::Stopped);
        ring_for_woken(&self.driven, &mut self.marks, is_halt, bells);
        step
    }

    pub(crate) fn die(&mut self, s: Session, bells: &Bells)
        requires session { IsSession X.sessions s.number }
        requires mortal { Contains X.mortals s.number }
        ensures { DeathOf X.sessions s.number (X.board self.old.driven) (X.board self.new.driven) }
    {
        self.driven.die(s);
        ring_for_woken(&self.driven, &mut self.marks, false, bells);
    }

    /// A step of the recovery of a dead session. A halt is rung for all.
    pub(crate) fn recover_step(&mut self, bells: &Bells) -> Step<X::Piece>
        ensures { RecoveryOf X.sessions (X.board self.old.driven) (X.board self.new.driven) result }
    {
        let step = self.driven.recover_step();
        let is_halt = matches!(&step, Step::Stopped);
        ring_for_woken(&self.driven, &mut self.marks, is_halt, bells);
        step
    }

    // A session that is asleep waits at its bell from now on.
    fn mark(&mut self, s: Session)
        requires session { IsSession X.sessions s.number }
        requires asleep { (X.board self.old.driven).asleep s.number ≡ true }
        ensures { Waits self.new.marks s.number }
    {
        self.marks[s.number as usize] = true;
    }

    // A session woke, and waits no more, whoever rang.
    fn unmark(&mut self, s: Session)
        requires { IsSession X.sessions s.number }
    {
        self.marks[s.number as usize] = false;
    }
}

impl Bells {
    pub(crate) fn new() -> Bells {
        Bells {
            condvars: array::from_fn(|_| Condvar::new()),
        }
    }

    /// A session that is asleep waits until somebody rings its bell. It may wake without that.
    pub(crate) fn wait<'b, R: Wait, X: Driven>(
        &self,
        rt: &R,
        shared: MutexGuard<'b, Shared<X>>,
        s: Session,
    ) -> MutexGuard<'b, Shared<X>>
        requires session { IsSession X.sessions s.number }
        requires asleep { (X.board (mutex_guard_value shared).driven).asleep s.number ≡ true }
    {
        let mut shared = shared;
        shared.mark(s);
        let mut shared = self.sleep(rt, shared, s);
        shared.unmark(s);
        shared
    }

    // Sleeps. Nobody does who isn't marked.
    fn sleep<'b, R: Wait, X: Driven>(
        &self,
        rt: &R,
        shared: MutexGuard<'b, Shared<X>>,
        s: Session,
    ) -> MutexGuard<'b, Shared<X>>
        requires { Waits (mutex_guard_value shared).marks s.number }
    {
        self.condvars[s.number as usize].wait(rt, shared)
    }

    // Rings for one session, which is marked no more.
    fn ring(&self, s: Session, marks: &mut [bool; NUMBERS])
        requires { Waits marks.old s.number }
        ensures rung { slice_index_or marks.new s.number false ≡ false }
        ensures others { (t : ℕ) → Waits marks.new t → Waits marks.old t }
    {
        marks[s.number as usize] = false;
        self.condvars[s.number as usize].notify_all();
    }
}

// Rings for each session that waits and isn't asleep any more, or for all that wait where all are to hear it.
fn ring_for_woken<X: Driven>(
    driven: &X,
    marks: &mut [bool; NUMBERS],
    is_for_all: bool,
    bells: &Bells,
)
    requires { AreSessions X.sessions marks.old }
    ensures sessions { AreSessions X.sessions marks.new }
    ensures asleep { AreAsleep (X.board driven.now).asleep marks.new }
{
    for number in 1..MOST_SESSIONS + 1 {
        let s = Session { number };
        if marks[number as usize] && (is_for_all || !driven.is_asleep(s)) {
            bells.ring(s, marks);
        }
    }
}
