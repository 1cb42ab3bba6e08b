ghost use Rattle.std.specs.Prelude.{◌≡◌, ℕ, ◌≤◌, All, true, false};
ghost use Rattle.rdb_drive.specs.Boards.{IsSession, MayDie, AllEnded};
ghost use Rattle.rdb_drive.specs.Steps.{StepOf};
ghost use Rattle.rdb_drive.specs.Orders.{KeepsOrder};
ghost use Rattle.rdb_drive.specs.Turns.{CameOf, TurnOf, RecoverOf, Midway, RoundOf};

use crate::driven::{Act, Driven, Gate, Step};
use rdb_types::Session;

/// The most sessions that a run has.
pub const MOST_SESSIONS: u32 = 16;

// What a step or a turn came to.
#[derive(Clone, Copy)]
pub(crate) enum Came {
    Said,
    Went,
    Sleeps,
    Over,
    Halts,
}

// How often the gate was asked for a session, and whether it had the session die.
#[derive(Clone, Copy)]
struct Asked {
    steps: u64,
    died: bool,
}

/// Drives the sessions by the calling thread: a turn for each entry of the order, and then for all sessions in ascending
/// order, again and again. A turn ends behind an answer, or where the session rests. True exactly where every session has
/// ended; else it is stopped. The gate is asked before each step, and no more for a session that it had die.
pub fn drive_in_order<X: Driven, G: Gate>(x: &mut X, sessions: u32, order: &[u32], gate: &G) -> bool
    requires sessions { sessions ≡ X.sessions }
    requires few { sessions ≤ MOST_SESSIONS }
    requires mortals { MayDie (G.mortals gate.now) X.mortals }
    requires entries { All (λ s. IsSession X.sessions s) order.now }

    ensures ended { result ≡ true → AllEnded X.sessions (X.board x.new) }
    ensures order { result ≡ true → KeepsOrder order.now X.sessions (X.board x.old) (X.board x.new) }
    ensures stopped { result ≡ false → (X.board x.new).stopped ≡ true }
{
    let mut asked = [Asked {
        steps: 0,
        died: false,
    }; MOST_SESSIONS as usize];
    let mut bench = X::bench();
    for number in order {
        let of_session = &mut asked[*number as usize - 1];
        match turn(x, Session { number: *number }, gate, of_session, &mut bench) {
            Came::Halts => return false,
            _ => {}
        }
    }
    loop {
        match go_round(x, sessions, gate, &mut asked, &mut bench) {
            Came::Halts => return false,
            Came::Over => return true,
            _ => {}
        }
    }
}

// A turn of each session, in ascending order. Over where all have ended.
fn go_round<X: Driven, G: Gate>(
    x: &mut X,
    sessions: u32,
    gate: &G,
    asked: &mut [Asked; MOST_SESSIONS as usize],
    bench: &mut X::Bench,
) -> Came
    requires sessions { sessions ≡ X.sessions }
    requires few { sessions ≤ MOST_SESSIONS }
    requires mortals { MayDie (G.mortals gate.now) X.mortals }
    ensures { RoundOf X.sessions (X.board x.old) (X.board x.new) result }
{
    let mut are_over = true;
    for turns in 0..sessions {
        let of_session = &mut asked[turns as usize];
        match turn(x, Session { number: turns + 1 }, gate, of_session, bench) {
            Came::Halts => return Came::Halts,
            Came::Over => {}
            _ => are_over = false,
        }
    }
    if are_over { Came::Over } else { Came::Went }
}

// A whole turn of a session.
fn turn<X: Driven, G: Gate>(
    x: &mut X,
    s: Session,
    gate: &G,
    asked: &mut Asked,
    bench: &mut X::Bench,
) -> Came
    requires session { IsSession X.sessions s.number }
    requires mortals { MayDie (G.mortals gate.now) X.mortals }
    ensures { TurnOf X.sessions s.number (X.board x.old) (X.board x.new) result }
{
    let mut done = None;
    loop {
        ask(x, s, gate, asked, &mut done);
        match step(x, s, &mut done, bench) {
            Came::Went => {}
            came => return came,
        }
    }
}

// Asks the gate, unless it had the session die before. What was worked is let go where the session dies.
fn ask<X: Driven, G: Gate>(
    x: &mut X,
    s: Session,
    gate: &G,
    asked: &mut Asked,
    done: &mut Option<X::Done>,
)
    requires session { IsSession X.sessions s.number }
    requires mortals { MayDie (G.mortals gate.now) X.mortals }
    ensures { Midway s.number (X.board x.old) (X.board x.new) }
{
    if asked.died {
        return;
    }
    asked.steps = asked.steps.wrapping_add(1);
    if dies(x, s, gate, asked.steps) {
        *done = None;
        asked.died = true;
    }
}

// Asks the gate, and has the session die where it says so.
fn dies<X: Driven, G: Gate>(x: &mut X, s: Session, gate: &G, step: u64) -> bool
    requires session { IsSession X.sessions s.number }
    requires mortals { MayDie (G.mortals gate.now) X.mortals }
    ensures { Midway s.number (X.board x.old) (X.board x.new) }
{
    let point = x.point(s);
    match gate.pass(s, step, point) {
        Act::Die => {
            x.die(s);
            true
        }
        Act::Go => false,
    }
}

// One step of a session, with the recovery step that it asks for.
fn step<X: Driven>(x: &mut X, s: Session, done: &mut Option<X::Done>, bench: &mut X::Bench) -> Came
    requires { IsSession X.sessions s.number }
    ensures { CameOf X.sessions s.number (X.board x.old) (X.board x.new) result }
{
    let before = x.answered(s);
    match give_or_next(x, s, done) {
        Step::Compute(piece) => {
            *done = Some(X::work(piece, bench));
            Came::Went
        }
        Step::Moved => {
            if before < x.answered(s) {
                Came::Said
            } else {
                Came::Went
            }
        }
        Step::Asleep => Came::Sleeps,
        Step::Frozen => recover(x, s),
        Step::Ended => Came::Over,
        Step::Stopped => Came::Halts,
    }
}

// Gives what was worked, or asks for the next step.
fn give_or_next<X: Driven>(x: &mut X, s: Session, done: &mut Option<X::Done>) -> Step<X::Piece>
    requires { IsSession X.sessions s.number }
    ensures { StepOf X.sessions s.number (X.board x.old) (X.board x.new) result }
{
    match done.take() {
        Some(value) => x.give(s, value),
        None => x.next(s),
    }
}

// A recovery step, which somebody dead awaits.
fn recover<X: Driven>(x: &mut X, s: Session) -> Came
    requires { (X.board x.old).mourns ≡ true }
    ensures { RecoverOf s.number (X.board x.old) (X.board x.new) result }
{
    match x.recover_step() {
        Step::Moved => Came::Went,
        Step::Stopped => Came::Halts,
        _ => unreachable!(),
    }
}
