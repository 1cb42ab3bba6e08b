// One run, to its end.
ghost use Rattle.std.specs.Prelude.{◌≡◌, ◌≤◌, ◌<◌, ◌^◌, ◌+◌, ◌∷◌, ◌⊎◌, [], None, Some, All, List, true, false, length, map, IfOk, IfErr};
ghost use Rattle.rdb_account.specs.Events.{event_of};
ghost use Rattle.rdb_account.specs.Legal.{IsLegal};
ghost use Rattle.session_states.specs.declared.item_queue.WholeScript.{WholeScript};
ghost use Rattle.line_runs.specs.line_cluster.Deaths.{RoseBy};
ghost use Rattle.line_runs.specs.line_cluster.Sound.{FollowsScripts};
ghost use Rattle.line_runs.specs.line_cluster.Turned.{HaveAllEnded};
ghost use Rattle.line_runs.specs.Openings.{HasNoNumbers, OpensWith, stop_of};
ghost use Rattle.line_runs.specs.Prefix.{GaveUp, HoldsAll, HoldsPrefix};
ghost use Rattle.workload_replies.specs.Replies.{has_death};
ghost use Rattle.workload_runs.specs.Among.{may_die_by};
ghost use Rattle.workload_runs.specs.Left.{EndsHeld, LastHolds};
ghost use Rattle.workload_runs.specs.Runs.{AreRuns, EndIf};
ghost use Rattle.workload_runs.specs.Statuses.{IsWhole, deaths_of_last, last_of, stopped_status};

use crate::accounts::{RunEnd, Runs, none_begun, one_run};
use crate::laws::told_is_left;
use crate::saying::{MOST_SESSIONS, end_of_run, say};
use lent_values::Naming;
use line_runs::{Halt, LineRun, Origin, ReservingStatements, Said};
use rdb_account::Events;
use rdb_drive::Gate;
use rdb_outside::Disk;
use session_jobs::Statements;
use std::alloc::Global;
use std::marker::Send;
use std::sync::Wait;
use std::thread::Threads;

/// A run whose sessions all came to their ends: its account, and the disk behind it.
#[derive(Drop)]
pub(crate) struct Done<D: Drop> {
    pub disk: D,
    pub events: Events,
}

// A run that ends the workload: one that wasn't begun has no account.
fn ended_by<D: Disk + Drop>(alloc: Global, ran: LineRun<D>, ended: RunEnd) -> Runs<D>
    requires unopened { (ran.fault ≡ None → ⊥) → ended.halt ≡ None }
    ensures disk { result.disk ≡ ran.disk }
    ensures begun { ran.fault ≡ None → ((result.accounts ≡ ran.events ∷ []) × (result.status ≡ ended.status))
        ⊎ ((result.accounts ≡ []) × (result.status ≡ 5)) }
    ensures unsaid { (ran.fault ≡ None → ⊥) → (result.accounts ≡ []) × (result.status ≡ ended.status) }
    ensures halt { ((result.halt ≡ ended.halt) × (result.status ≡ ended.status))
        ⊎ ((result.halt ≡ None) × (result.status ≡ 5)) }
{
    match ran.fault {
        None => one_run(alloc, ran.disk, ran.events, ended.status, ended.halt),
        Some(_) => none_begun(alloc, ran.disk, ended.status),
    }
}

/// Says what a run says. It is done where the next one may begin; else the workload ends with it.
pub(crate) fn run_part<
    R: Threads + Wait + Sync,
    O: Origin + Naming + Send,
    D: Disk + Drop + Send,
    G: Gate + Sync,
>(rt: &R, alloc: Global, disk: D, said: Said, gate: &G) -> Result<Done<D>, Runs<D>>
    requires desk { said.desk ≡ O.book }
    requires sessions { length said.scripts.items ≡ O.sessions }
    requires few { O.sessions ≤ MOST_SESSIONS }
    requires short { All (λ script. length script.items < 2 ^ 32) said.scripts.items }
    requires scripts { FollowsScripts O.opening said.scripts.items }
    requires stops { O.opening.stops ≡ stop_of said.scripts.items }
    requires word { said.word ≡ O.opening.word }
    requires mortals { O.opening.may_die ≡ may_die_by (G.mortals gate.now) }
    requires opens { O.told → OpensWith ⟦<ReservingStatements as Statements>⟧.stands (D.view disk) O.opening }
    requires faults { O.told → O.faults ≡ (D.view disk).faults }
    requires numbers { O.told → HasNoNumbers (D.view disk) → ⊥ }
    // Where it is done.
    ensures legal { O.told → IfOk result (λ done. IsLegal O.opening (map event_of done.events)) }
    ensures whole { O.told → IfOk result (λ done. HaveAllEnded O.opening O.sessions (map event_of done.events)) }
    ensures left { O.told → IfOk result (λ done. HoldsAll ⟦<ReservingStatements as Statements>⟧.stands O.opening (D.view done.disk) (map event_of done.events)) }
    ensures images { O.told → IfOk result (λ done. HoldsPrefix ⟦<ReservingStatements as Statements>⟧.stands O.opening (D.view done.disk) (map event_of done.events)) }
    ensures lived { IfOk result (λ done. has_death done.events ≡ false) }
    ensures no_fewer { O.told → IfOk result (λ done. RoseBy 0 (D.view disk).faults (D.view done.disk).faults) }
    // Where the workload ends.
    ensures runs { O.told → (more : List (List WholeScript)) → IfErr result (λ ended. AreRuns (EndIf (IsWhole ended.status)) (record { word = O.opening.word; may_die = O.opening.may_die }) O.opening.tables (said.scripts.items ∷ more) ended.accounts) }
    ensures status { IfErr result (λ ended. (ended.status ≡ 3) ⊎ (ended.status ≡ 4) ⊎ (ended.status ≡ 5) ⊎ (ended.status ≡ 8)) }
    ensures died { IfErr result (λ ended. ended.status ≡ 8 → has_death (last_of ended.accounts) ≡ true) }
    ensures harmed { O.told → IfErr result (λ ended. RoseBy (deaths_of_last ended.accounts) (D.view disk).faults (D.view ended.disk).faults) }
    ensures stopped { O.told → IfErr result (λ ended. ended.status ≡ 3 → RoseBy (deaths_of_last ended.accounts + 1) (D.view disk).faults (D.view ended.disk).faults) }
    ensures halted { IfErr result (λ ended. (why : Halt) → ended.halt ≡ Some why → ended.status ≡ stopped_status (Some why)) }
    ensures refused { O.told → IfErr result (λ ended. ended.status ≡ 4 → HasNoNumbers (D.view ended.disk)) }
    ensures holds { O.told → (more : List (List WholeScript)) → IfErr result (λ ended.
        LastHolds (EndsHeld ⟦<ReservingStatements as Statements>⟧.stands (IsWhole ended.status) (D.view ended.disk))
        ((IsWhole ended.status → ⊥) × GaveUp ⟦<ReservingStatements as Statements>⟧.stands O.opening (D.view disk) (D.view ended.disk))
        (record { word = O.opening.word; may_die = O.opening.may_die }) O.opening.tables (said.scripts.items ∷ more) ended.accounts ended.status) }
{
    let ran = say::<R, O, D, G>(rt, alloc, disk, said, gate);
    told_is_left(&ran.disk);
    let ended = end_of_run(&ran);
    let status = ended.status;
    if status != 0 {
        return Err(ended_by(alloc, ran, ended));
    }
    let LineRun { disk, events, .. } = ran;
    Ok(Done { disk, events })
}
