//! The sessions of a run driven to their ends.
ghost use Rattle.std.specs.Prelude.{◌≡◌, ◌≤◌, ℕ, [], All, map, false, is_some, not, true};
ghost use Rattle.rdb_account.specs.Events.{event_of};
ghost use Rattle.rdb_account.specs.Legal.{AreWhole, IsLegal};
ghost use Rattle.rdb_drive.specs.Boards.{AllEnded, IsSession, MayDie};
ghost use Rattle.line_store.specs.Seats.{outside};
ghost use Rattle.line_store.specs.Sights.{bare};
ghost use Rattle.line_cluster.specs.Deaths.{CountsFaults, failures};
ghost use Rattle.line_cluster.specs.Sound.{HasImages, IsLeft, ShowsSpent, is_over_slot, is_unsound};
ghost use Rattle.line_cluster.specs.Turned.{HaveAllEnded, is_session};
ghost use Rattle.line_drive.specs.Boards.{board_of, mortals_of};
ghost use Rattle.line_drive.specs.Turns.{KeepsTurns, has_deaths};

use crate::driver::LineDriver;
use lent_jobs::Remembers;
use lent_values::Naming;
use line_cluster::{Finished, Halt, LineCluster, Origin};
use line_store::LineStore;
use rdb_account::Events;
use rdb_drive::{Gate, MOST_SESSIONS, drive, drive_in_order};
use reached_changes::Reaches;
use reserved_locks::Reserves;
use std::marker::Send;
use std::sync::Wait;
use std::thread::Threads;

/// What a run came to: its events, its store, and whether every session came to its end, or died and was recovered; if not, why the
/// sessions were stopped.
#[derive(Drop)]
pub struct Ran<L> {
    pub events: Events,
    pub store: L,
    pub is_whole: bool,
    pub halt: Option<Halt>,
}

// What the driven sessions came to.
fn ran_of<O: Origin + Naming, S: Reserves + Reaches, L: LineStore + Drop>(
    driver: LineDriver<O, S, L>,
    has_ended: bool,
) -> Ran<L>
    requires ended { has_ended ≡ true → AllEnded O.sessions (board_of O.told O.opening driver) }
    requires stopped { has_ended ≡ false → driver.halted ≡ true }
    ensures events { result.events ≡ driver.events }
    ensures ended { result.is_whole ≡ true → has_ended ≡ true }
    ensures going { result.is_whole ≡ true → driver.halted ≡ false }
    ensures halt { is_some result.halt ≡ not result.is_whole }
    ensures legal { O.told → IsLegal O.opening (map event_of result.events) }
    ensures whole { result.is_whole ≡ true → O.told → HaveAllEnded O.opening O.sessions (map event_of result.events) }
    ensures unharmed { result.is_whole ≡ true → O.told → has_deaths (map event_of result.events) ≡ false → AreWhole (is_session O.sessions) O.opening (map event_of result.events) }
    ensures left { result.is_whole ≡ true → O.told → IsLeft S.stands O.opening (L.sight result.store) (map event_of result.events) }
    ensures images { O.told → HasImages S.stands O.opening (L.sight result.store) (map event_of result.events) }
    ensures faults { O.told → CountsFaults O.faults (failures (map event_of result.events) result.halt) (L.sight result.store) }
    ensures agrees { O.told → is_unsound result.halt ≡ false }
    ensures spent { O.told → is_over_slot result.halt ≡ true → ShowsSpent (L.sight result.store) }
    ensures outside { result.is_whole ≡ true → (s : ℕ) → bare ((L.sight result.store).stand s) ≡ outside }
{
    driver.facts();
    let Finished {
        events,
        store,
        halt,
    } = driver.end();
    let is_whole = has_ended && !halt.is_some();
    Ran {
        events,
        store,
        is_whole,
        halt,
    }
}

/// Drives the sessions by the calling thread, a turn for each entry of the order and then in ascending order, again and again,
/// until all have ended or no session goes on. The gate is asked before each step, and may have a session die there; it is
/// recovered before another goes on.
pub fn run_in_order<
    O: Origin + Naming + Send,
    S: Reserves + Reaches + Remembers + Send,
    L: LineStore + Drop,
    G: Gate,
>(cluster: LineCluster<O, S, L>, sessions: u32, order: &[u32], gate: &G) -> Ran<L>
where
    S::Kept: Send,
    S::Memory: Send,
    requires fresh { cluster.events ≡ [] }
    requires sessions { sessions ≡ O.sessions }
    requires few { sessions ≤ MOST_SESSIONS }
    requires mortals { MayDie (G.mortals gate.now) (mortals_of O.opening O.sessions) }
    requires entries { All (λ s. IsSession O.sessions s) order.now }
    ensures legal { O.told → IsLegal O.opening (map event_of result.events) }
    ensures halt { is_some result.halt ≡ not result.is_whole }
    ensures whole { result.is_whole ≡ true → O.told → HaveAllEnded O.opening O.sessions (map event_of result.events) }
    ensures unharmed { result.is_whole ≡ true → O.told → has_deaths (map event_of result.events) ≡ false → AreWhole (is_session O.sessions) O.opening (map event_of result.events) }
    ensures left { result.is_whole ≡ true → O.told → IsLeft S.stands O.opening (L.sight result.store) (map event_of result.events) }
    ensures images { O.told → HasImages S.stands O.opening (L.sight result.store) (map event_of result.events) }
    ensures faults { O.told → CountsFaults O.faults (failures (map event_of result.events) result.halt) (L.sight result.store) }
    ensures agrees { O.told → is_unsound result.halt ≡ false }
    ensures spent { O.told → is_over_slot result.halt ≡ true → ShowsSpent (L.sight result.store) }
    ensures outside { result.is_whole ≡ true → (s : ℕ) → bare ((L.sight result.store).stand s) ≡ outside }
    ensures order { result.is_whole ≡ true → O.told → KeepsTurns O.opening O.sessions order.now result.events }
{
    let mut driver = LineDriver::new(cluster);
    let has_ended = drive_in_order(&mut driver, sessions, order, gate);
    ran_of(driver, has_ended)
}

/// Drives the sessions by a thread each, and what hasn't ended then by the calling thread, until all have ended or no session goes
/// on. The gate is asked before each step, and may have a session die there; whoever comes next recovers it.
pub fn run_in_threads<
    R: Threads + Wait + Sync,
    O: Origin + Naming + Send,
    S: Reserves + Reaches + Remembers + Send,
    L: LineStore + Drop + Send,
    G: Gate + Sync,
>(rt: &R, cluster: LineCluster<O, S, L>, sessions: u32, gate: &G) -> Ran<L>
where
    S::Kept: Send,
    S::Memory: Send,
    requires fresh { cluster.events ≡ [] }
    requires sessions { sessions ≡ O.sessions }
    requires few { sessions ≤ MOST_SESSIONS }
    requires mortals { MayDie (G.mortals gate.now) (mortals_of O.opening O.sessions) }
    ensures legal { O.told → IsLegal O.opening (map event_of result.events) }
    ensures halt { is_some result.halt ≡ not result.is_whole }
    ensures whole { result.is_whole ≡ true → O.told → HaveAllEnded O.opening O.sessions (map event_of result.events) }
    ensures unharmed { result.is_whole ≡ true → O.told → has_deaths (map event_of result.events) ≡ false → AreWhole (is_session O.sessions) O.opening (map event_of result.events) }
    ensures left { result.is_whole ≡ true → O.told → IsLeft S.stands O.opening (L.sight result.store) (map event_of result.events) }
    ensures images { O.told → HasImages S.stands O.opening (L.sight result.store) (map event_of result.events) }
    ensures faults { O.told → CountsFaults O.faults (failures (map event_of result.events) result.halt) (L.sight result.store) }
    ensures agrees { O.told → is_unsound result.halt ≡ false }
    ensures spent { O.told → is_over_slot result.halt ≡ true → ShowsSpent (L.sight result.store) }
    ensures outside { result.is_whole ≡ true → (s : ℕ) → bare ((L.sight result.store).stand s) ≡ outside }
{
    let driver = LineDriver::new(cluster);
    let mut driver = drive(rt, driver, sessions, gate);
    let has_ended = drive_in_order(&mut driver, sessions, &[], gate);
    ran_of(driver, has_ended)
}
