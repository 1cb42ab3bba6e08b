// The whole of a workload.
ghost use Rattle.std.specs.Prelude.{◌≡◌, ◌≤◌, ◌+◌, ◌⊎◌, [], None, Some, true, false, length, map, IsTrue};
ghost use Rattle.rdb_outside.specs.Causes.{Rose};
ghost use Rattle.rdb_outside.specs.Disk.{Image, Keeps, LeavesOnly, LeftNow, OnlyReads};
ghost use Rattle.root_file.specs.Root.{AreLimits};
ghost use Rattle.new_database.specs.Maker.{IsUnmade, HasRoot};
ghost use Rattle.new_database.specs.New.{IsNewDatabase, IsNewDatabaseOrNone};
ghost use Rattle.rdb_account.specs.Events.{event_of};
ghost use Rattle.rdb_meaning.specs.Contents.{no_tables};
ghost use Rattle.line_runs.specs.line_cluster.Deaths.{RoseBy};
ghost use Rattle.line_runs.specs.Openings.{HasNoNumbers};
ghost use Rattle.line_runs.specs.Prefix.{HoldsAll};
ghost use Rattle.rmu_commands.specs.Written.{HasText};
ghost use Rattle.workload_replies.specs.Replies.{has_death};
ghost use Rattle.workload_runs.specs.Among.{may_die_by};
ghost use Rattle.workload_runs.specs.Deaths.{HaveCauses, SomeDied};
ghost use Rattle.workload_runs.specs.Reports.{Reports};
ghost use Rattle.workload_runs.specs.Left.{EndsHeld, HoldsRun, LastHolds, StandSince};
ghost use Rattle.workload_runs.specs.Runs.{AreRuns, EndIf};
ghost use Rattle.workload_runs.specs.Scripts.{scripts_of_runs};
ghost use Rattle.workload_runs.specs.Statuses.{is_run_status, is_unharmed, is_workload_status, IsWhole, deaths_of_last, have_death, last_of, stopped_status};

use crate::accounts::{Runs, none_begun};
use crate::ending::finish;
use crate::laws::told_is_left;
use crate::preparing::{Part, prepare};
use crate::runs::{Ready, run_first};
use crate::stopping::seen;
use line_runs::{Halt, ReservingStatements, a_new_database_opens};
use line_store::Fault;
use new_database::{NewFault, make_new};
use rdb_account::Events;
use rdb_drive::Gate;
use rdb_outside::{Disk, Sink};
use rdb_types::{Items, Limits, Word};
use session_jobs::Statements;
use stable_lines::new_is_kept;
use std::alloc::Global;
use std::marker::{Brand, Send};
use std::sync::Wait;
use std::thread::Threads;
use watched_disk::{Beginning, WatchedDisk};

/// What a workload is to do: the word of its database, how many accounts it makes, and how far the files may grow.
#[derive(Drop)]
pub struct Plan {
    pub word: Word,
    pub accounts: u32,
    pub limits: Limits,
}

/// How a workload ended, the accounts of its runs of sessions that were begun, in their order, and why the sessions of the last one were stopped, if they were.
#[derive(Drop)]
pub struct WorkloadEnd<D: Drop> {
    pub status: u8,
    pub disk: D,
    pub accounts: Items<Events>,
    pub halt: Option<Halt>,
}

// Says what a workload says to a new database.
fn begin<R: Threads + Wait + Sync, D: Disk + Drop + Send, G: Gate + Sync>(
    rt: &R,
    alloc: Global,
    plan: &Plan,
    disk: D,
    gate: &G,
) -> Runs<D>
    requires accounts { (2 ≤ plan.now.accounts) × (plan.now.accounts ≤ 2000) }
    ensures runs { IsTrue (D.view disk).tells → IsNewDatabase plan.now.limits (D.view disk).content →
        AreRuns (EndIf (IsWhole result.status)) (record { word = plan.now.word; may_die = may_die_by (G.mortals gate.now) }) no_tables (scripts_of_runs plan.now.accounts) result.accounts }
    ensures status { is_run_status result.status ≡ true }
    ensures count { result.status ≡ 0 → length result.accounts ≡ 3 }
    ensures lived { result.status ≡ 0 → have_death result.accounts ≡ false }
    ensures died { result.status ≡ 8 → has_death (last_of result.accounts) ≡ true }
    ensures harmed { IsTrue (D.view disk).tells → IsNewDatabase plan.now.limits (D.view disk).content →
        RoseBy (deaths_of_last result.accounts) (D.view disk).faults (D.view result.disk).faults }
    ensures stopped { IsTrue (D.view disk).tells → IsNewDatabase plan.now.limits (D.view disk).content → result.status ≡ 3 →
        RoseBy (deaths_of_last result.accounts + 1) (D.view disk).faults (D.view result.disk).faults }
    ensures halted { (why : Halt) → result.halt ≡ Some why → result.status ≡ stopped_status (Some why) }
    ensures refused { IsTrue (D.view disk).tells → IsNewDatabase plan.now.limits (D.view disk).content → result.status ≡ 4 →
        HasNoNumbers (D.view result.disk) }
    // Where no run was begun, only reads came before it, or an opening that gave up.
    ensures holds { IsTrue (D.view disk).tells → IsNewDatabase plan.now.limits (D.view disk).content → ((image : Image) → LeftNow (D.view disk) image → IsNewDatabase plan.now.limits image) →
        LastHolds (EndsHeld ⟦<ReservingStatements as Statements>⟧.stands (IsWhole result.status) (D.view result.disk))
        ((IsWhole result.status → ⊥) × (OnlyReads (D.view disk) (D.view result.disk) ⊎ StandSince ⟦<ReservingStatements as Statements>⟧.stands (D.view result.disk) no_tables))
        (record { word = plan.now.word; may_die = may_die_by (G.mortals gate.now) }) no_tables (scripts_of_runs plan.now.accounts) result.accounts result.status }
{
    let mut disk = disk;
    new_is_kept();
    a_new_database_opens();
    match prepare(alloc, &mut disk, plan, Part::First) {
        Err(status) => none_begun(alloc, disk, status),
        Ok(prepared) => {
            let ready = Ready {
                plan,
                prepared,
                before: &[],
            };
            run_first::<R, Brand, D, G>(rt, alloc, disk, ready, gate)
        }
    }
}

// No database was made.
fn unmade<D: Drop>(alloc: Global, disk: D, fault: NewFault) -> WorkloadEnd<D>
    ensures disk { result.disk ≡ disk }
    ensures accounts { result.accounts ≡ [] }
    ensures status { (result.status ≡ 3) ⊎ (result.status ≡ 9) }
    ensures failed { result.status ≡ 3 → fault ≡ NewFault.Failed }
    ensures taken { result.status ≡ 9 → fault ≡ NewFault.NotEmpty }
    ensures halt { result.halt ≡ None }
{
    let status = match fault {
        NewFault::Failed => 3,
        NewFault::NotEmpty => 9,
    };
    WorkloadEnd {
        status,
        disk,
        accounts: Items::new(alloc),
        halt: None,
    }
}

// That a device failed is told where a call of the disk was seen to fail. (Where a device ended the workload one was.)
fn status_seen(status: u8, has_failed: bool) -> u8
    ensures status { (result ≡ status) ⊎ ((result ≡ 5) × (status ≡ 3)) }
    ensures failed { result ≡ 3 → has_failed ≡ true }
    ensures same { has_failed ≡ true → result ≡ status }
{
    if status == 3 && !has_failed {
        5
    } else {
        status
    }
}

// A workload over a watched disk, over the disk.
fn unwatched<B: Beginning, D: Disk + Drop>(ended: WorkloadEnd<WatchedDisk<B, D>>) -> WorkloadEnd<D>
    requires { (why : Halt) → ended.halt ≡ Some why → ended.status ≡ stopped_status (Some why) }
    ensures disk { result.disk ≡ (ended.disk).disk }
    ensures accounts { result.accounts ≡ ended.accounts }
    ensures status { (result.status ≡ ended.status) ⊎ ((result.status ≡ 5) × (ended.status ≡ 3)) }
    ensures device { result.status ≡ 3 → Rose B.faults (D.view result.disk).faults }
    ensures halt { (ended.halt ≡ Some (Halt.Device Fault.Failed) → ⊥) → result.halt ≡ ended.halt }
    ensures halted { (why : Halt) → result.halt ≡ Some why → result.status ≡ stopped_status (Some why) }
{
    let WorkloadEnd {
        status,
        disk,
        accounts,
        halt,
    } = ended;
    let has_failed = disk.has_failed();
    WorkloadEnd {
        status: status_seen(status, has_failed),
        disk: disk.into_disk(),
        accounts,
        halt: seen(halt, has_failed),
    }
}

/// Makes a database, has one session make accounts, four sessions move money between them, and one count them, and verifies the database. It writes what was counted and how many faults there are. The status is 0 where there is none, and 7 where there is one; 8 where a session died, 5 where memory was wanted or a statement of the first run wasn't done, 3, 4 and 6 where it gave up, and 9 where there is a database already.
pub fn workload<R, B, D, K, G>(
    rt: &R,
    alloc: Global,
    plan: &Plan,
    disk: D,
    out: &mut K,
    gate: &G,
) -> WorkloadEnd<D>
where
    R: Threads + Wait + Sync,
    B: Beginning + Send,
    D: Disk + Drop + Send,
    K: Sink,
    G: Gate + Sync,
    requires accounts { (2 ≤ plan.now.accounts) × (plan.now.accounts ≤ 2000) }
    requires limits { AreLimits plan.now.limits }
    // The disk is watched from now on.
    requires began { B.faults ≡ (D.view disk).faults }
    ensures status { is_workload_status result.status ≡ true }
    // The accounts are those of runs of the stated scripts, one after another: each is legal, the first begins with no tables, each
    // next one with those that the one before has committed, and each but the last has all its sessions at their ends.
    ensures runs { IsTrue (D.view disk).tells → IsUnmade (D.view disk) →
        AreRuns (EndIf (IsWhole result.status)) (record { word = plan.now.word; may_die = may_die_by (G.mortals gate.now) }) no_tables (scripts_of_runs plan.now.accounts) result.accounts }
    // There are three where there is a report.
    ensures three { HasText result.status → length result.accounts ≡ 3 }
    // What is written is what the last run printed, and how many faults the database has.
    ensures reports { Reports (D.view result.disk) (last_of result.accounts) result.status (K.tells out.old ≡ true) (K.taken out.old) (K.taken out.new) }
    // Some session died, or none.
    ensures died { result.status ≡ 8 → has_death (last_of result.accounts) ≡ true }
    ensures lived { HasText result.status → have_death result.accounts ≡ false }
    // Who died in the last run did so of a device call that failed, of the gate, which names it, or for want of memory; under status 8
    // somebody did.
    ensures causes { IsTrue (D.view disk).tells → IsUnmade (D.view disk) →
        HaveCauses (G.mortals gate.now) (Rose (D.view disk).faults (D.view result.disk).faults) (map event_of (last_of result.accounts)) }
    ensures fallen { IsTrue (D.view disk).tells → IsUnmade (D.view disk) → result.status ≡ 8 →
        SomeDied (G.mortals gate.now) (Rose (D.view disk).faults (D.view result.disk).faults) (map event_of (last_of result.accounts)) }
    // A device call failed, or one on the sink.
    ensures device { result.status ≡ 3 → Rose (D.view disk).faults (D.view result.disk).faults }
    ensures sink { result.status ≡ 6 → Rose (K.faults out.old) (K.faults out.new) }
    // Behind it VERIFY finds no fault.
    ensures faultless { IsTrue (D.view disk).tells → IsUnmade (D.view disk) → result.status ≡ 7 → ⊥ }
    // Where none of either failed it ends with 0, 4, 5 or 8.
    ensures unharmed { IsTrue (D.view disk).tells → IsUnmade (D.view disk) →
        (Rose (D.view disk).faults (D.view result.disk).faults → ⊥) → (Rose (K.faults out.old) (K.faults out.new) → ⊥) → is_unharmed result.status ≡ true }
    // As many device calls failed as sessions died of a device, and under status 3 one more.
    ensures harmed { IsTrue (D.view disk).tells → IsUnmade (D.view disk) →
        RoseBy (deaths_of_last result.accounts) (D.view disk).faults (D.view result.disk).faults }
    ensures stopped { IsTrue (D.view disk).tells → IsUnmade (D.view disk) → result.status ≡ 3 →
        RoseBy (deaths_of_last result.accounts + 1) (D.view disk).faults (D.view result.disk).faults }
    // Sessions that were stopped have the status of what stopped them.
    ensures halted { (why : Halt) → result.halt ≡ Some why → result.status ≡ stopped_status (Some why) }
    // The numbers are used up behind it.
    ensures refused { IsTrue (D.view disk).tells → IsUnmade (D.view disk) → result.status ≡ 4 →
        HasNoNumbers (D.view result.disk) }
    // A crash leaves a prefix of the account of the last run that was begun, or all of it; where none was, no database, the new one, or
    // one without tables. Only under 5 that account may not be handed back.
    ensures images { IsTrue (D.view disk).tells → IsUnmade (D.view disk) →
        LastHolds (HoldsRun ⟦<ReservingStatements as Statements>⟧.stands (D.view result.disk))
        (LeavesOnly (D.view disk) (D.view result.disk) (IsNewDatabaseOrNone plan.now.limits) ⊎ StandSince ⟦<ReservingStatements as Statements>⟧.stands (D.view result.disk) no_tables)
        (record { word = plan.now.word; may_die = may_die_by (G.mortals gate.now) }) no_tables (scripts_of_runs plan.now.accounts) result.accounts result.status }
    // Where every session of the last run that lived came to its end, all of it.
    ensures left { IsTrue (D.view disk).tells → IsUnmade (D.view disk) → IsWhole result.status →
        AreRuns (λ o sessions events. HoldsAll ⟦<ReservingStatements as Statements>⟧.stands o (D.view result.disk) events)
        (record { word = plan.now.word; may_die = may_die_by (G.mortals gate.now) }) no_tables (scripts_of_runs plan.now.accounts) result.accounts }
    // There is a database already, and then it stays as it is.
    ensures taken { result.status ≡ 9 → IsTrue (D.view disk).tells → HasRoot (D.view disk).content }
    ensures standing { IsTrue (D.view disk).tells → HasRoot (D.view disk).content →
        ((result.status ≡ 3) ⊎ (result.status ≡ 5) ⊎ (result.status ≡ 9)) × Keeps (D.view disk) (D.view result.disk) }
    ensures idle { IsTrue (D.view disk).tells → HasRoot (D.view disk).content → result.halt ≡ None }
{
    told_is_left(&disk);
    let mut disk = WatchedDisk::<B, D>::new(disk);
    match make_new(&mut disk, plan.limits) {
        Err(fault) => unwatched(unmade(alloc, disk, fault)),
        Ok(()) => {
            told_is_left(&disk);
            let runs = begin::<R, WatchedDisk<B, D>, G>(rt, alloc, plan, disk, gate);
            told_is_left(&runs.disk);
            unwatched(finish(alloc, runs, out))
        }
    }
}
