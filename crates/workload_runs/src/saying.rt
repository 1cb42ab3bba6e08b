// One run of sessions.
ghost use Rattle.std.specs.Prelude.{◌≡◌, ◌≤◌, ◌<◌, ◌^◌, ◌⊎◌, ℕ, All, None, Some, [], true, false, length, map};
ghost use Rattle.rdb_types.specs.declared.file.FileId.{FileId as File};
ghost use Rattle.rdb_outside.specs.Causes.{Rose};
ghost use Rattle.rdb_account.specs.Events.{event_of};
ghost use Rattle.rdb_account.specs.Legal.{IsLegal};
ghost use Rattle.line_runs.specs.line_cluster.Deaths.{RoseBy, failures};
ghost use Rattle.line_runs.specs.line_cluster.Sound.{FollowsScripts, is_over_slot, is_unsound};
ghost use Rattle.line_runs.specs.line_cluster.Turned.{HaveAllEnded};
ghost use Rattle.line_runs.specs.Openings.{HasNoNumbers, HasSpent, OpensWith};
ghost use Rattle.line_runs.specs.Prefix.{GaveUp, HoldsAll, HoldsPrefix};
ghost use Rattle.rmu_commands.specs.Usable.{status_at};
ghost use Rattle.workload_replies.specs.Replies.{has_death};
ghost use Rattle.workload_runs.specs.Among.{may_die_by};
ghost use Rattle.workload_runs.specs.Statuses.{IsBadOpening, IsOverLine, IsOverSlot, IsWhole, is_run_status, stopped_status};

use crate::accounts::RunEnd;
use crate::gate::Among;
use crate::stopping::status_of_halt;
use lent_values::Naming;
use line_opening::OpeningFault;
use line_runs::{Halt, LineRun, Origin, ReservingStatements, Said, say_in_threads};
use line_store::Fault;
use rdb_drive::Gate;
use rdb_outside::Disk;
use session_jobs::Statements;
use std::alloc::Global;
use std::marker::{Brand, Send};
use std::sync::Wait;
use std::thread::Threads;
use workload_replies::some_died;

/// The most sessions of a run.
pub(crate) const MOST_SESSIONS: u32 = 4;

/// Says scripts, each by a thread of its own. The gate may have those of its sessions die that the run has.
pub(crate) fn say<
    R: Threads + Wait + Sync,
    O: Origin + Naming + Send,
    D: Disk + Drop + Send,
    G: Gate + Sync,
>(rt: &R, alloc: Global, disk: D, said: Said, gate: &G) -> LineRun<D>
    requires desk { said.desk ≡ O.book }
    requires sessions { length said.scripts.items ≡ O.sessions }
    requires few { O.sessions ≤ MOST_SESSIONS }
    requires short { All (λ script. length script.items < 2 ^ 32) said.scripts.items }
    requires scripts { FollowsScripts O.opening said.scripts.items }
    requires word { said.word ≡ O.opening.word }
    requires mortals { O.opening.may_die ≡ may_die_by (G.mortals gate.now) }
    requires opens { O.told → OpensWith ⟦<ReservingStatements as Statements>⟧.stands (D.view disk) O.opening }
    requires faults { O.told → O.faults ≡ (D.view disk).faults }
    ensures legal { O.told → IsLegal O.opening (map event_of result.events) }
    ensures whole { O.told → result.is_whole ≡ true → HaveAllEnded O.opening O.sessions (map event_of result.events) }
    ensures left { O.told → result.is_whole ≡ true → HoldsAll ⟦<ReservingStatements as Statements>⟧.stands O.opening (D.view result.disk) (map event_of result.events) }
    ensures images { O.told → result.fault ≡ None → HoldsPrefix ⟦<ReservingStatements as Statements>⟧.stands O.opening (D.view result.disk) (map event_of result.events) }
    ensures gave_up { O.told → (result.fault ≡ None → ⊥) → GaveUp ⟦<ReservingStatements as Statements>⟧.stands O.opening (D.view disk) (D.view result.disk) }
    ensures agrees { O.told → is_unsound result.halt ≡ false }
    ensures spent { O.told → is_over_slot result.halt ≡ true → HasSpent (D.view result.disk) }
    ensures bad { (file : File) (slot : ℕ) → result.fault ≡ Some (OpeningFault.Bad file slot) → HasNoNumbers (D.view disk) }
    ensures harmed { O.told → RoseBy (failures (map event_of result.events) result.halt) (D.view disk).faults (D.view result.disk).faults }
    ensures failed { result.fault ≡ Some OpeningFault.Failed → Rose (D.view disk).faults (D.view result.disk).faults }
    ensures unsaid { (result.fault ≡ None → ⊥) → result.events ≡ [] }
{
    let sessions = said.scripts.len() as u32;
    say_in_threads::<R, O, Brand, D, Among<'_, G>>(
        rt,
        alloc,
        disk,
        said,
        &Among::of(sessions, gate),
    )
}

/// The status of a database that wasn't opened or read.
pub fn status_of_fault(fault: OpeningFault) -> u8
    ensures { result ≡ status_at fault }
{
    match fault {
        OpeningFault::Failed => 3,
        OpeningFault::NoMemory => 5,
        OpeningFault::Bad(_, _) => 4,
    }
}

/// How a run ends a workload: with 0 where the next one may begin.
pub(crate) fn end_of_run<D: Disk + Drop>(ran: &LineRun<D>) -> RunEnd
    ensures status { is_run_status result.status ≡ true }
    ensures whole { IsWhole result.status → (ran.now.is_whole ≡ true) × (ran.now.fault ≡ None) }
    ensures lived { result.status ≡ 0 → has_death ran.now.events ≡ false }
    ensures died { result.status ≡ 8 → has_death ran.now.events ≡ true }
    ensures device { result.status ≡ 3 → (ran.now.fault ≡ Some OpeningFault.Failed)
        ⊎ ((ran.now.fault ≡ None) × (ran.now.halt ≡ Some (Halt.Device Fault.Failed))) }
    ensures bad { result.status ≡ 4 → IsBadOpening ran.now.fault ⊎ IsOverSlot result.halt ⊎ IsOverLine result.halt }
    ensures halt { (result.halt ≡ ran.now.halt) ⊎ (result.halt ≡ None) }
    ensures halted { (why : Halt) → result.halt ≡ Some why → result.status ≡ stopped_status (Some why) }
    ensures unopened { (ran.now.fault ≡ None → ⊥) → result.halt ≡ None }
{
    match ran.fault {
        Some(fault) => RunEnd::of(status_of_fault(fault)),
        None => {
            if !ran.is_whole {
                RunEnd {
                    status: status_of_halt(ran.halt),
                    halt: ran.halt,
                }
            } else if some_died(ran.events.as_slice()) {
                RunEnd::of(8)
            } else {
                RunEnd::of(0)
            }
        }
    }
}
