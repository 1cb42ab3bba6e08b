// The verification behind the runs, and what is written.
ghost use Rattle.std.specs.Prelude.{◌≡◌, ◌⊎◌, true, Some, [], IsTrue};
ghost use Rattle.rdb_outside.specs.Causes.{Rose};
ghost use Rattle.rdb_outside.specs.Disk.{OnlyReads};
ghost use Rattle.rmu_commands.specs.Usable.{IsUsable};
ghost use Rattle.rmu_commands.specs.Written.{Writes};
ghost use Rattle.workload_scripts.specs.Report.{report_text as text_of_report};
ghost use Rattle.workload_replies.specs.Replies.{counted_among};
ghost use Rattle.workload_runs.specs.Reports.{Reports, report_of};
ghost use Rattle.workload_runs.specs.Statuses.{is_run_status, is_workload_status, last_of, stopped_status};

use crate::accounts::Runs;
use crate::saying::status_of_fault;
use crate::whole::WorkloadEnd;
use faultless_databases::verify;
use line_runs::Halt;
use rdb_account::Events;
use rdb_outside::{Disk, Sink};
use rdb_types::Bytes;
use rmu_texts::VerifyFault;
use script_streams::write_all;
use std::alloc::Global;
use workload_replies::{Counted, counted_in};
use workload_scripts::{Report, report_text};

// What the last run has counted.
fn counted_by_last(accounts: &[Events]) -> Option<Counted>
    ensures { result ≡ counted_among (last_of accounts.now) }
{
    match accounts {
        [.., last] => counted_in(last.as_slice()),
        [] => None,
    }
}

// Writes the report, and answers the status.
fn write_report<K: Sink>(alloc: Global, counted: Counted, faults: &[VerifyFault], out: &mut K) -> u8
    ensures status { (result ≡ 0) ⊎ (result ≡ 5) ⊎ (result ≡ 6) ⊎ (result ≡ 7) }
    ensures none { result ≡ 0 → faults.now ≡ [] }
    ensures some { result ≡ 7 → faults.now ≡ [] → ⊥ }
    ensures writes { K.tells out.old ≡ true → Writes result (text_of_report (report_of counted faults.now)) (K.taken out.old) (K.taken out.new) }
    ensures sink { result ≡ 6 → Rose (K.faults out.old) (K.faults out.new) }
{
    let mut text = Bytes::new(alloc);
    let report = Report {
        accounts: counted.accounts,
        total: counted.total,
        faults: faults.len() as u64,
    };
    if report_text(report, &mut text).is_err() {
        return 5;
    }
    if write_all(out, text.as_slice()).is_err() {
        6
    } else if faults.is_empty() {
        0
    } else {
        7
    }
}

// Verifies the database behind a whole workload, and writes the report.
fn report<D: Disk, K: Sink>(alloc: Global, disk: &mut D, accounts: &[Events], out: &mut K) -> u8
    ensures status { is_workload_status result ≡ true }
    ensures lived { (result ≡ 8) ⊎ (result ≡ 9) → ⊥ }
    ensures reports { Reports (D.view disk.new) (last_of accounts.now) result (K.tells out.old ≡ true) (K.taken out.old) (K.taken out.new) }
    ensures device { result ≡ 3 → Rose (D.view disk.old).faults (D.view disk.new).faults }
    ensures sink { result ≡ 6 → Rose (K.faults out.old) (K.faults out.new) }
    ensures refused { result ≡ 4 → IsTrue (D.view disk.old).tells → IsUsable (D.view disk.old).content → ⊥ }
    ensures reads { OnlyReads (D.view disk.old) (D.view disk.new) }
{
    let Some(counted) = counted_by_last(accounts) else {
        return 5;
    };
    match verify(alloc, disk) {
        Ok(faults) => write_report(alloc, counted, faults.as_slice(), out),
        Err(fault) => status_of_fault(fault),
    }
}

/// Ends a workload: where its runs came to their ends, with a verification and a report.
pub(crate) fn finish<D: Disk + Drop, K: Sink>(
    alloc: Global,
    runs: Runs<D>,
    out: &mut K,
) -> WorkloadEnd<D>
    requires status { is_run_status runs.status ≡ true }
    requires halted { (why : Halt) → runs.halt ≡ Some why → runs.status ≡ stopped_status (Some why) }
    ensures status { is_workload_status result.status ≡ true }
    ensures kept { (result.status ≡ runs.status) ⊎ (runs.status ≡ 0) }
    ensures dead { (result.status ≡ 8) ⊎ (result.status ≡ 9) → result.status ≡ runs.status }
    ensures accounts { result.accounts ≡ runs.accounts }
    ensures reports { Reports (D.view result.disk) (last_of runs.accounts) result.status (K.tells out.old ≡ true) (K.taken out.old) (K.taken out.new) }
    ensures reads { OnlyReads (D.view runs.disk) (D.view result.disk) }
    ensures same { (runs.status ≡ 0 → ⊥) → result.disk ≡ runs.disk }
    ensures refused { result.status ≡ 4 → runs.status ≡ 0 → IsTrue (D.view runs.disk).tells → IsUsable (D.view runs.disk).content → ⊥ }
    ensures halt { result.halt ≡ runs.halt }
    ensures halted { (why : Halt) → result.halt ≡ Some why → result.status ≡ stopped_status (Some why) }
    ensures device { result.status ≡ 3 → runs.status ≡ 0 → Rose (D.view runs.disk).faults (D.view result.disk).faults }
    ensures sink { result.status ≡ 6 → Rose (K.faults out.old) (K.faults out.new) }
{
    let Runs {
        mut disk,
        accounts,
        status,
        halt,
    } = runs;
    let status = if status == 0 {
        report(alloc, &mut disk, accounts.as_slice(), out)
    } else {
        status
    };
    WorkloadEnd {
        status,
        disk,
        accounts,
        halt,
    }
}
