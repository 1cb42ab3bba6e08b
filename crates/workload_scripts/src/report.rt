// What is written of a workload.
ghost use Rattle.std.specs.Prelude.{◌≡◌, ◌++◌, codes, OnOk};
ghost use Rattle.workload_scripts.specs.Report.{signed, counted, report_text as text_of_report};

use itoa::Buffer;
use rdb_types::{Bytes, NoMemory};

/// What a workload came to: how many accounts were counted, the sum of their balances, and how many faults a verification listed.
#[derive(Clone, Copy, Debug, PartialEq, Eq)]
pub struct Report {
    pub accounts: i64,
    pub total: i64,
    pub faults: u64,
}

fn accounts_line(report: Report, out: &mut Bytes) -> Result<(), NoMemory>
    ensures { OnOk result (out.new ≡ out.old ++ signed (codes "accounts ") report.accounts) }
{
    let mut buffer = Buffer::new();
    out.extend(b"accounts ")?;
    out.extend(buffer.format(report.accounts).as_bytes())?;
    out.push(b'\n')
}

fn total_line(report: Report, out: &mut Bytes) -> Result<(), NoMemory>
    ensures { OnOk result (out.new ≡ out.old ++ signed (codes "total ") report.total) }
{
    let mut buffer = Buffer::new();
    out.extend(b"total ")?;
    out.extend(buffer.format(report.total).as_bytes())?;
    out.push(b'\n')
}

fn faults_line(report: Report, out: &mut Bytes) -> Result<(), NoMemory>
    ensures { OnOk result (out.new ≡ out.old ++ counted (codes "faults ") report.faults) }
{
    let mut buffer = Buffer::new();
    out.extend(b"faults ")?;
    out.extend(buffer.format(report.faults).as_bytes())?;
    out.push(b'\n')
}

/// Adds the three lines of a report.
pub fn report_text(report: Report, out: &mut Bytes) -> Result<(), NoMemory>
    ensures { OnOk result (out.new ≡ out.old ++ text_of_report report) }
{
    accounts_line(report, out)?;
    total_line(report, out)?;
    faults_line(report, out)
}
