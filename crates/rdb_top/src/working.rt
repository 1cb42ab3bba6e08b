//! WORKLOAD, by its words.
ghost use Rattle.std.specs.Prelude.{◌≡◌, ◌≤◌, ◌+◌, ◌⊎◌, None, Some, [], true, false, length, map, IfOk, IsTrue};
ghost use Rattle.rdb_outside.specs.Causes.{Rose};
ghost use Rattle.rdb_outside.specs.Disk.{Keeps};
ghost use Rattle.root_file.specs.Root.{AreLimits};
ghost use Rattle.new_database.specs.Maker.{IsUnmade, HasRoot};
ghost use Rattle.rdb_account.specs.Events.{event_of};
ghost use Rattle.workload_runs.specs.line_cluster.Deaths.{RoseBy, device_deaths};
ghost use Rattle.command_words.specs.Options.{limits_of, nothing_asked};
ghost use Rattle.command_words.specs.Words.{command_of as command_for, AreAccounts};
ghost use Rattle.workload_runs.specs.rmu_commands.Written.{HasText};
ghost use Rattle.workload_replies.specs.Replies.{has_death};
ghost use Rattle.workload_runs.specs.Deaths.{HaveCauses, SomeDied};
ghost use Rattle.workload_runs.specs.Reports.{Reports};
ghost use Rattle.workload_runs.specs.line_runs.Openings.{HasNoNumbers};
ghost use Rattle.workload_runs.specs.Statuses.{is_unharmed, is_workload_status, have_death, stopped_status};
ghost use Rattle.rdb_top.specs.Workloads.{AreWorkloadRuns, EndIn, LeavesAll, LeavesRuns, database_in};

use crate::finishing::{Finish, unsaid};
use command_words::{Command, database_word, usual_limits};
use rdb_drive::Gate;
use rdb_outside::{Disk, Sink};
use rdb_types::{Copied, Items, NoMemory, Word};
use session_jobs::Statements;
use std::alloc::Global;
use std::marker::Send;
use std::sync::Wait;
use std::thread::Threads;
use watched_disk::Beginning;
use workload_runs::{Halt, Plan, ReservingStatements, WorkloadEnd, workload};

// The workload that the words name.
fn plan_of(alloc: Global, words: &[Word], accounts: u32) -> Result<Plan, NoMemory>
    requires row { command_for words.now ≡ Some (Command.Workload accounts) }
    ensures word { IfOk result (λ plan. plan.word ≡ database_in words.now) }
    ensures accounts { IfOk result (λ plan. plan.accounts ≡ accounts) }
    ensures limits { IfOk result (λ plan. plan.limits ≡ limits_of nothing_asked) }
    ensures allowed { IfOk result (λ plan. AreLimits plan.limits) }
{
    match database_word(words) {
        Some(at) => Ok(Plan {
            word: words[at].copied(alloc)?,
            accounts,
            limits: usual_limits(),
        }),
        None => unreachable!(),
    }
}

// What is handed back of a workload: its last account apart from the earlier ones.
fn last_apart<D: Drop>(alloc: Global, ended: WorkloadEnd<D>) -> Finish<D>
    ensures status { result.status ≡ ended.status }
    ensures disk { result.disk ≡ ended.disk }
    ensures accounts { EndIn ended.accounts result.earlier result.events }
    ensures halt { result.halt ≡ ended.halt }
{
    let WorkloadEnd {
        status,
        disk,
        accounts,
        halt,
    } = ended;
    let mut earlier = accounts;
    match earlier.pop() {
        Some(events) => Finish {
            status,
            disk,
            events,
            earlier,
            halt,
        },
        None => Finish {
            status,
            disk,
            events: Items::new(alloc),
            earlier,
            halt,
        },
    }
}

/// The words of a workload, and how many accounts it makes.
#[derive(Clone, Copy)]
pub struct Task<'a> {
    pub words: &'a [Word],
    pub accounts: u32,
}

/// Makes a database, has sessions work in it, and verifies it.
pub fn run_workload<R, B, D, K, G>(
    rt: &R,
    alloc: Global,
    task: Task<'_>,
    disk: D,
    out: &mut K,
    gate: &G,
) -> Finish<D>
where
    R: Threads + Wait + Sync,
    B: Beginning + Send,
    D: Disk + Drop + Send,
    K: Sink,
    G: Gate + Sync,
    requires row { command_for task.words.now ≡ Some (Command.Workload task.accounts) }
    requires few { AreAccounts task.accounts }
    requires began { B.faults ≡ (D.view disk).faults }
    ensures status { is_workload_status result.status ≡ true }
    ensures halted { (why : Halt) → result.halt ≡ Some why → result.status ≡ stopped_status (Some why) }
    ensures runs { IsTrue (D.view disk).tells → IsUnmade (D.view disk) →
        AreWorkloadRuns task.entry.words.now (G.mortals gate.now) task.entry.accounts result.status result.earlier result.events }
    ensures three { HasText result.status → length result.earlier ≡ 2 }
    ensures reports { Reports (D.view result.disk) result.events result.status (K.tells out.old ≡ true) (K.taken out.old) (K.taken out.new) }
    ensures died { result.status ≡ 8 → has_death result.events ≡ true }
    ensures lived { HasText result.status → (have_death result.earlier ≡ false) × (has_death result.events ≡ false) }
    ensures causes { IsTrue (D.view disk).tells → IsUnmade (D.view disk) →
        HaveCauses (G.mortals gate.now) (Rose (D.view disk).faults (D.view result.disk).faults) (map event_of result.events) }
    ensures fallen { IsTrue (D.view disk).tells → IsUnmade (D.view disk) → result.status ≡ 8 →
        SomeDied (G.mortals gate.now) (Rose (D.view disk).faults (D.view result.disk).faults) (map event_of result.events) }
    ensures device { result.status ≡ 3 → Rose (D.view disk).faults (D.view result.disk).faults }
    ensures sink { result.status ≡ 6 → Rose (K.faults out.old) (K.faults out.new) }
    ensures harmed { IsTrue (D.view disk).tells → IsUnmade (D.view disk) →
        RoseBy (device_deaths (map event_of result.events)) (D.view disk).faults (D.view result.disk).faults }
    ensures stopped { IsTrue (D.view disk).tells → IsUnmade (D.view disk) → result.status ≡ 3 →
        RoseBy (device_deaths (map event_of result.events) + 1) (D.view disk).faults (D.view result.disk).faults }
    ensures refused { IsTrue (D.view disk).tells → IsUnmade (D.view disk) → result.status ≡ 4 →
        HasNoNumbers (D.view result.disk) }
    ensures images { IsTrue (D.view disk).tells → IsUnmade (D.view disk) →
        LeavesRuns ⟦<ReservingStatements as Statements>⟧.stands task.entry.words.now (G.mortals gate.now) task.entry.accounts (D.view disk) (D.view result.disk) result.status result.earlier result.events }
    ensures left { IsTrue (D.view disk).tells → IsUnmade (D.view disk) →
        LeavesAll ⟦<ReservingStatements as Statements>⟧.stands task.entry.words.now (G.mortals gate.now) task.entry.accounts (D.view result.disk) result.status result.earlier result.events }
    ensures faultless { IsTrue (D.view disk).tells → IsUnmade (D.view disk) → result.status ≡ 7 → ⊥ }
    ensures unharmed { IsTrue (D.view disk).tells → IsUnmade (D.view disk) →
        (Rose (D.view disk).faults (D.view result.disk).faults → ⊥) → (Rose (K.faults out.old) (K.faults out.new) → ⊥) → is_unharmed result.status ≡ true }
    ensures taken { result.status ≡ 9 → IsTrue (D.view disk).tells → HasRoot (D.view disk).content }
    ensures standing { IsTrue (D.view disk).tells → HasRoot (D.view disk).content →
        ((result.status ≡ 3) ⊎ (result.status ≡ 5) ⊎ (result.status ≡ 9)) × Keeps (D.view disk) (D.view result.disk) }
    ensures idle { IsTrue (D.view disk).tells → HasRoot (D.view disk).content → result.halt ≡ None }
{
    match plan_of(alloc, task.words, task.accounts) {
        Err(_) => unsaid(alloc, 5, disk),
        Ok(plan) => last_apart(
            alloc,
            workload::<R, B, D, K, G>(rt, alloc, &plan, disk, out, gate),
        ),
    }
}
