ghost use Rattle.std.specs.Prelude.{◌≡◌, ◌≤◌};
ghost use Rattle.rdb_drive.specs.Boards.{IsSession, MayDie};

use crate::bell::{Bells, Shared};
use crate::driven::{Act, Driven, Gate, Point, Step};
use crate::order::MOST_SESSIONS;
use rdb_types::Session;
use std::sync::{Mutex, MutexGuard, Wait};
use std::thread;
use std::thread::Threads;

/// So many steps of a statement a session makes at most before it lets others have the lock. Each step that gave it up would wake a thread that waits for it.
const STEPS_AT_ONCE: u32 = 64;

/// Drives all sessions, with a thread for each, and gives back what was driven. A session whose thread can't be started is driven by
/// the caller.
pub fn drive<R: Threads + Wait + Sync, X: Driven + Send, G: Gate + Sync>(
    rt: &R,
    driven: X,
    sessions: u32,
    gate: &G,
) -> X
    requires sessions { sessions ≡ X.sessions }
    requires few { sessions ≤ MOST_SESSIONS }
    requires mortals { MayDie (G.mortals gate.now) X.mortals }
{
    let shared = Mutex::new(Shared::new(driven));
    let bells = Bells::new();
    drive_shared(rt, &shared, &bells, sessions, gate);
    shared.into_inner().end()
}

// Drives all sessions of what the threads share.
fn drive_shared<R: Threads + Wait + Sync, X: Driven + Send, G: Gate + Sync>(
    rt: &R,
    shared: &Mutex<Shared<X>>,
    bells: &Bells,
    sessions: u32,
    gate: &G,
)
    requires sessions { sessions ≡ X.sessions }
    requires mortals { MayDie (G.mortals gate.now) X.mortals }
{
    thread::scope(
        thread::scope_env(),
        rt,
        |scope|
            requires { (sessions ≡ X.sessions) × MayDie (G.mortals gate.now) X.mortals }
        {
            for number in 1..=sessions {
                let s = Session { number };
                let thread = scope.spawn(
                    move ||
                        requires { IsSession X.sessions s.number × MayDie (G.mortals gate.now) X.mortals }
                    { drive_one(rt, shared, bells, s, gate) },
                );
                if thread.is_err() {
                    drive_one(rt, shared, bells, s, gate);
                }
            }
        },
    );
}

// The lock that is held already, or that is waited for.
fn locked<'b, R: Wait, T>(
    rt: &R,
    shared: &'b Mutex<T>,
    kept: Option<MutexGuard<'b, T>>,
) -> MutexGuard<'b, T> {
    match kept {
        Some(held) => held,
        None => shared.lock(rt),
    }
}

// Drives one session until it has ended or is stopped.
fn drive_one<R: Wait, X: Driven, G: Gate>(
    rt: &R,
    shared: &Mutex<Shared<X>>,
    bells: &Bells,
    s: Session,
    gate: &G,
)
    requires session { IsSession X.sessions s.number }
    requires mortals { MayDie (G.mortals gate.now) X.mortals }
{
    let mut bench = X::bench();
    let mut done = None;
    let mut count: u64 = 0;
    let mut is_asked = true;
    let mut kept = None;
    let mut steps = 0u32;
    // (what the next step is, is looked at behind the last one, so that each step locks once)
    let mut point = shared.lock(rt).point(s);
    for _ in rt.forever() {
        let mut act = Act::Go;
        if is_asked {
            count = count.wrapping_add(1);
            act = gate.pass(s, count, point);
        }
        match act {
            Act::Die => {
                done = None;
                is_asked = false;
                locked(rt, shared, kept.take()).die(s, bells);
            }
            Act::Go => {
                let mut held = locked(rt, shared, kept.take());
                let step = held.step(s, done.take(), bells);
                point = held.point(s);
                match step {
                    Step::Compute(piece) => {
                        drop(held);
                        done = Some(X::work(piece, &mut bench));
                    }
                    Step::Moved => {
                        steps = steps.wrapping_add(1) % STEPS_AT_ONCE;
                        kept = match point {
                            Point::Other if steps != 0 => Some(held),
                            _ => None,
                        };
                    }
                    Step::Asleep => point = bells.wait(rt, held, s).point(s),
                    Step::Frozen => {
                        if matches!(held.recover_step(bells), Step::Stopped) {
                            return;
                        }
                    }
                    Step::Ended | Step::Stopped => return,
                }
            }
        }
    }
}
