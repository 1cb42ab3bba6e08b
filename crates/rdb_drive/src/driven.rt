ghost use Rattle.std.specs.Prelude.{◌≡◌, ℕ, List, Contains};
ghost use Rattle.rdb_drive.specs.Boards.{Board, IsSession, answers_by};
ghost use Rattle.rdb_drive.specs.Steps.{StepOf, RecoveryOf, DeathOf};

use rdb_types::Session;
use std::marker::Send;

/// What a gate lets a session do.
#[derive(Clone, Copy, Debug, PartialEq, Eq)]
pub enum Act {
    Go,
    Die,
}

/// What a session's next step is.
#[derive(Clone, Copy, Debug, PartialEq, Eq)]
pub enum Point {
    /// The first step of its n-th statement, counted from 1. A fault of syntax counts as a statement.
    Statement(u32),
    /// The barrier behind its commit record.
    Barrier,
    Other,
}

/// What a step came to.
#[derive(Drop)]
pub enum Step<P> {
    /// There is work to do outside the lock.
    Compute(P),
    Moved,
    /// The session waits for another.
    Asleep,
    /// A dead session awaits its recovery.
    Frozen,
    /// The session has nothing left to do, or is dead.
    Ended,
    /// No session goes on.
    Stopped,
}

/// Lets each step of each session go on, or has the session die there.
pub trait Gate {
    /// The sessions that it may have die.
    ghost mortals: { Self → List ℕ };

    /// Asked before a step of a session. The steps of each session are counted from 1.
    fn pass(&self, s: Session, step: u64, point: Point) -> Act
        ensures { result ≡ Act.Die → Contains (mortals self.now) s.number };
}

/// A value that sessions drive, step by step.
pub trait Driven {
    /// Work that needs no lock.
    type Piece: Send + Drop;

    /// What such work came to.
    type Done: Send + Drop;

    /// What whoever works has at hand, and keeps from piece to piece.
    type Bench: Send + Drop;

    /// The events so far, who rests, sleeps or has ended, and the measure that falls.
    ghost board: { Self → Board };

    ghost sessions: { ℕ };

    /// The sessions that may die.
    ghost mortals: { List ℕ };

    /// Whether the session sleeps: its next step would be answered Asleep, and so would each until something else moves.
    fn is_asleep(&self, s: Session) -> bool
        requires { IsSession sessions s.number }
        ensures { result ≡ (board self.now).asleep s.number };

    /// What the session's next step is.
    fn point(&self, s: Session) -> Point
        requires { IsSession sessions s.number };

    /// The session's next step.
    fn next(&mut self, s: Session) -> Step<Self::Piece>
        requires { IsSession sessions s.number }
        ensures { StepOf sessions s.number (board self.old) (board self.new) result };

    fn bench() -> Self::Bench;

    fn work(piece: Self::Piece, bench: &mut Self::Bench) -> Self::Done;

    /// The step that takes what was worked. Where it is answered Frozen, the value keeps what it was given for a later step.
    fn give(&mut self, s: Session, done: Self::Done) -> Step<Self::Piece>
        requires { IsSession sessions s.number }
        ensures { StepOf sessions s.number (board self.old) (board self.new) result };

    /// The session dies here. Nothing changes where it has ended or is dead.
    fn die(&mut self, s: Session)
        requires session { IsSession sessions s.number }
        requires mortal { Contains mortals s.number }
        ensures { DeathOf sessions s.number (board self.old) (board self.new) };

    /// A step of the recovery of a dead session.
    fn recover_step(&mut self) -> Step<Self::Piece>
        ensures { RecoveryOf sessions (board self.old) (board self.new) result };

    /// How many answers the session was given.
    fn answered(&self, s: Session) -> u64
        requires { IsSession sessions s.number }
        ensures { result ≡ answers_by s.number (board self.now).marks };
}
