// The runs of a workload, each over what the one before left.
ghost use Rattle.std.specs.Prelude.{◌≡◌, ◌≤◌, ◌<◌, ◌^◌, ◌+◌, ◌∷◌, All, Some, [], true, false, length};
ghost use Rattle.line_runs.specs.line_cluster.Deaths.{RoseBy};
ghost use Rattle.line_runs.specs.line_cluster.Sound.{FollowsScripts};
ghost use Rattle.line_runs.specs.Openings.{HasNoNumbers, OpensWith, stop_of};
ghost use Rattle.line_runs.specs.Prefix.{GaveUp};
ghost use Rattle.workload_replies.specs.Replies.{has_death};
ghost use Rattle.workload_runs.specs.Among.{may_die_by};
ghost use Rattle.workload_runs.specs.Left.{EndsHeld, LastHolds};
ghost use Rattle.workload_runs.specs.Runs.{AreRuns, EndIf};
ghost use Rattle.workload_runs.specs.Scripts.{scripts_in};
ghost use Rattle.workload_runs.specs.Statuses.{is_run_status, IsWhole, deaths_of_last, have_death, last_of, stopped_status};

use crate::Plan;
use crate::accounts::{Runs, in_front, one_run};
use crate::laws::told_is_left;
use crate::part::{Done, run_part};
use crate::preparing::{Part, Prepared, prepare};
use crate::saying::MOST_SESSIONS;
use lent_values::Naming;
use line_runs::{Halt, Origin, ReservingStatements};
use rdb_account::Event;
use rdb_drive::Gate;
use rdb_outside::Disk;
use session_jobs::Statements;
use std::alloc::Global;
use std::marker::{Brand, Send};
use std::sync::Wait;
use std::thread::Threads;
use workload_replies::all_done;

/// What a run is made of: the plan of the workload, what it says and over what it stands, and the account of the run before it.
#[derive(Drop)]
pub(crate) struct Ready<'a> {
    pub plan: &'a Plan,
    pub prepared: Prepared,
    pub before: &'a [Event],
}

/// The last run.
pub(crate) fn run_last<
    R: Threads + Wait + Sync,
    O: Origin + Naming + Send,
    D: Disk + Drop + Send,
    G: Gate + Sync,
>(rt: &R, alloc: Global, disk: D, ready: Ready<'_>, gate: &G) -> Runs<D>
    requires desk { ready.prepared.said.desk ≡ O.book }
    requires says { ready.prepared.said.scripts.items ≡ scripts_in Part.Last ready.plan.now.accounts }
    requires sessions { length ready.prepared.said.scripts.items ≡ O.sessions }
    requires few { O.sessions ≤ MOST_SESSIONS }
    requires short { All (λ script. length script.items < 2 ^ 32) ready.prepared.said.scripts.items }
    requires scripts { FollowsScripts O.opening ready.prepared.said.scripts.items }
    requires stops { O.opening.stops ≡ stop_of ready.prepared.said.scripts.items }
    requires word { ready.prepared.said.word ≡ O.opening.word }
    requires mortals { O.opening.may_die ≡ may_die_by (G.mortals gate.now) }
    requires opens { O.told → OpensWith ⟦<ReservingStatements as Statements>⟧.stands (D.view disk) O.opening }
    requires faults { O.told → O.faults ≡ (D.view disk).faults }
    requires numbers { O.told → HasNoNumbers (D.view disk) → ⊥ }
    ensures runs { O.told → AreRuns (EndIf (IsWhole result.status)) (record { word = O.opening.word; may_die = O.opening.may_die }) O.opening.tables
        (scripts_in Part.Last ready.entry.plan.now.accounts ∷ []) result.accounts }
    ensures status { is_run_status result.status ≡ true }
    ensures count { result.status ≡ 0 → length result.accounts ≡ 1 }
    ensures lived { result.status ≡ 0 → have_death result.accounts ≡ false }
    ensures died { result.status ≡ 8 → has_death (last_of result.accounts) ≡ true }
    ensures harmed { O.told → RoseBy (deaths_of_last result.accounts) (D.view disk).faults (D.view result.disk).faults }
    ensures stopped { O.told → result.status ≡ 3 → RoseBy (deaths_of_last result.accounts + 1) (D.view disk).faults (D.view result.disk).faults }
    ensures halted { (why : Halt) → result.halt ≡ Some why → result.status ≡ stopped_status (Some why) }
    ensures refused { O.told → result.status ≡ 4 → HasNoNumbers (D.view result.disk) }
    ensures holds { O.told → LastHolds (EndsHeld ⟦<ReservingStatements as Statements>⟧.stands (IsWhole result.status) (D.view result.disk))
        ((IsWhole result.status → ⊥) × GaveUp ⟦<ReservingStatements as Statements>⟧.stands O.opening (D.view disk) (D.view result.disk))
        (record { word = O.opening.word; may_die = O.opening.may_die }) O.opening.tables
        (scripts_in Part.Last ready.entry.plan.now.accounts ∷ []) result.accounts result.status }
{
    match run_part::<R, O, D, G>(rt, alloc, disk, ready.prepared.said, gate) {
        Ok(done) => one_run(alloc, done.disk, done.events, 0, None),
        Err(ended) => ended,
    }
}

/// The second run, of transfers, and the last one over what it leaves.
pub(crate) fn run_transfers<
    R: Threads + Wait + Sync,
    O: Origin + Naming + Send,
    D: Disk + Drop + Send,
    G: Gate + Sync,
>(rt: &R, alloc: Global, disk: D, ready: Ready<'_>, gate: &G) -> Runs<D>
    requires desk { ready.prepared.said.desk ≡ O.book }
    requires says { ready.prepared.said.scripts.items ≡ scripts_in Part.Transfers ready.plan.now.accounts }
    requires sessions { length ready.prepared.said.scripts.items ≡ O.sessions }
    requires few { O.sessions ≤ MOST_SESSIONS }
    requires short { All (λ script. length script.items < 2 ^ 32) ready.prepared.said.scripts.items }
    requires scripts { FollowsScripts O.opening ready.prepared.said.scripts.items }
    requires stops { O.opening.stops ≡ stop_of ready.prepared.said.scripts.items }
    requires word { ready.prepared.said.word ≡ O.opening.word }
    requires mortals { O.opening.may_die ≡ may_die_by (G.mortals gate.now) }
    requires opens { O.told → OpensWith ⟦<ReservingStatements as Statements>⟧.stands (D.view disk) O.opening }
    requires faults { O.told → O.faults ≡ (D.view disk).faults }
    requires numbers { O.told → HasNoNumbers (D.view disk) → ⊥ }
    requires accounts { (2 ≤ ready.plan.now.accounts) × (ready.plan.now.accounts ≤ 2000) }
    requires named { ready.plan.now.word ≡ O.opening.word }
    ensures runs { O.told → AreRuns (EndIf (IsWhole result.status)) (record { word = O.opening.word; may_die = O.opening.may_die }) O.opening.tables
        (scripts_in Part.Transfers ready.entry.plan.now.accounts ∷ scripts_in Part.Last ready.entry.plan.now.accounts ∷ []) result.accounts }
    ensures status { is_run_status result.status ≡ true }
    ensures count { result.status ≡ 0 → length result.accounts ≡ 2 }
    ensures lived { result.status ≡ 0 → have_death result.accounts ≡ false }
    ensures died { result.status ≡ 8 → has_death (last_of result.accounts) ≡ true }
    ensures harmed { O.told → RoseBy (deaths_of_last result.accounts) (D.view disk).faults (D.view result.disk).faults }
    ensures stopped { O.told → result.status ≡ 3 → RoseBy (deaths_of_last result.accounts + 1) (D.view disk).faults (D.view result.disk).faults }
    ensures halted { (why : Halt) → result.halt ≡ Some why → result.status ≡ stopped_status (Some why) }
    ensures refused { O.told → result.status ≡ 4 → HasNoNumbers (D.view result.disk) }
    ensures holds { O.told → LastHolds (EndsHeld ⟦<ReservingStatements as Statements>⟧.stands (IsWhole result.status) (D.view result.disk))
        ((IsWhole result.status → ⊥) × GaveUp ⟦<ReservingStatements as Statements>⟧.stands O.opening (D.view disk) (D.view result.disk))
        (record { word = O.opening.word; may_die = O.opening.may_die }) O.opening.tables
        (scripts_in Part.Transfers ready.entry.plan.now.accounts ∷ scripts_in Part.Last ready.entry.plan.now.accounts ∷ []) result.accounts result.status }
{
    let plan = ready.plan;
    let Done { mut disk, events } = match run_part::<R, O, D, G>(
        rt,
        alloc,
        disk,
        ready.prepared.said,
        gate,
    ) {
        Ok(done) => done,
        Err(ended) => return ended,
    };
    told_is_left(&disk);
    match prepare(alloc, &mut disk, plan, Part::Last) {
        Err(status) => one_run(alloc, disk, events, status, None),
        Ok(prepared) => {
            let ready = Ready {
                plan,
                prepared,
                before: events.as_slice(),
            };
            let behind = run_last::<R, Brand, D, G>(rt, alloc, disk, ready, gate);
            in_front(alloc, events, behind)
        }
    }
}

/// The first run, which makes the accounts, and the others over what it leaves.
pub(crate) fn run_first<
    R: Threads + Wait + Sync,
    O: Origin + Naming + Send,
    D: Disk + Drop + Send,
    G: Gate + Sync,
>(rt: &R, alloc: Global, disk: D, ready: Ready<'_>, gate: &G) -> Runs<D>
    requires desk { ready.prepared.said.desk ≡ O.book }
    requires says { ready.prepared.said.scripts.items ≡ scripts_in Part.First ready.plan.now.accounts }
    requires sessions { length ready.prepared.said.scripts.items ≡ O.sessions }
    requires few { O.sessions ≤ MOST_SESSIONS }
    requires short { All (λ script. length script.items < 2 ^ 32) ready.prepared.said.scripts.items }
    requires scripts { FollowsScripts O.opening ready.prepared.said.scripts.items }
    requires stops { O.opening.stops ≡ stop_of ready.prepared.said.scripts.items }
    requires word { ready.prepared.said.word ≡ O.opening.word }
    requires mortals { O.opening.may_die ≡ may_die_by (G.mortals gate.now) }
    requires opens { O.told → OpensWith ⟦<ReservingStatements as Statements>⟧.stands (D.view disk) O.opening }
    requires faults { O.told → O.faults ≡ (D.view disk).faults }
    requires numbers { O.told → HasNoNumbers (D.view disk) → ⊥ }
    requires accounts { (2 ≤ ready.plan.now.accounts) × (ready.plan.now.accounts ≤ 2000) }
    requires named { ready.plan.now.word ≡ O.opening.word }
    ensures runs { O.told → AreRuns (EndIf (IsWhole result.status)) (record { word = O.opening.word; may_die = O.opening.may_die }) O.opening.tables
        (scripts_in Part.First ready.entry.plan.now.accounts ∷ scripts_in Part.Transfers ready.entry.plan.now.accounts ∷ scripts_in Part.Last ready.entry.plan.now.accounts ∷ []) result.accounts }
    ensures status { is_run_status result.status ≡ true }
    ensures count { result.status ≡ 0 → length result.accounts ≡ 3 }
    ensures lived { result.status ≡ 0 → have_death result.accounts ≡ false }
    ensures died { result.status ≡ 8 → has_death (last_of result.accounts) ≡ true }
    ensures harmed { O.told → RoseBy (deaths_of_last result.accounts) (D.view disk).faults (D.view result.disk).faults }
    ensures stopped { O.told → result.status ≡ 3 → RoseBy (deaths_of_last result.accounts + 1) (D.view disk).faults (D.view result.disk).faults }
    ensures halted { (why : Halt) → result.halt ≡ Some why → result.status ≡ stopped_status (Some why) }
    ensures refused { O.told → result.status ≡ 4 → HasNoNumbers (D.view result.disk) }
    ensures holds { O.told → LastHolds (EndsHeld ⟦<ReservingStatements as Statements>⟧.stands (IsWhole result.status) (D.view result.disk))
        ((IsWhole result.status → ⊥) × GaveUp ⟦<ReservingStatements as Statements>⟧.stands O.opening (D.view disk) (D.view result.disk))
        (record { word = O.opening.word; may_die = O.opening.may_die }) O.opening.tables
        (scripts_in Part.First ready.entry.plan.now.accounts ∷ scripts_in Part.Transfers ready.entry.plan.now.accounts ∷ scripts_in Part.Last ready.entry.plan.now.accounts ∷ []) result.accounts result.status }
{
    let plan = ready.plan;
    let Done { mut disk, events } = match run_part::<R, O, D, G>(
        rt,
        alloc,
        disk,
        ready.prepared.said,
        gate,
    ) {
        Ok(done) => done,
        Err(ended) => return ended,
    };
    if !all_done(events.as_slice()) {
        return one_run(alloc, disk, events, 5, None);
    }
    told_is_left(&disk);
    match prepare(alloc, &mut disk, plan, Part::Transfers) {
        Err(status) => one_run(alloc, disk, events, status, None),
        Ok(prepared) => {
            let ready = Ready {
                plan,
                prepared,
                before: events.as_slice(),
            };
            let behind = run_transfers::<R, Brand, D, G>(rt, alloc, disk, ready, gate);
            in_front(alloc, events, behind)
        }
    }
}
