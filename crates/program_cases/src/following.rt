// Runs that follow one another over one database.
ghost use Rattle.std.specs.Prelude.{◌≤◌};
ghost use Rattle.rdb_outside.specs.Told.{told_by};

use crate::keeping::put_byte;
use crate::runs::{Outcome, new_database, run_on, tell, wide_disk};
use crate::texts::{scripts_in, words_in};
use rdb_outside::{Disk, MemoryDisk, MemorySink, MemorySource};
use rdb_types::{Moment, NoMemory};
use std::sync::Wait;
use std::thread::Threads;

/// More steps than a session of the cases has.
const MOST_STEPS: u32 = 10_000;

/// A run over what is on the disk.
pub fn run_over<R: Print + AllocGlobal + Threads + Wait + Sync>(
    rt: &R,
    run: &str,
    disk: MemoryDisk,
) -> Result<Outcome, NoMemory> {
    let alloc = rt.alloc();
    let words = words_in(alloc, run)?;
    let source = MemorySource::new(alloc, scripts_in(alloc, run)?, &[])?;
    let out = MemorySink::new(alloc, 65536, &[])?;
    Ok(run_on(rt, words.as_slice(), source, out, disk))
}

/// A new database to which the head was said, by a run of its own.
pub fn behind_head<R: Print + AllocGlobal + Threads + Wait + Sync>(
    rt: &R,
    head: &[u8],
) -> Result<MemoryDisk, NoMemory> {
    let alloc = rt.alloc();
    let words = words_in(alloc, "RDO PERS s1")?;
    let mut scripts = Vec::new(alloc);
    scripts.push(Vec::from_slice(alloc, head)?)?;
    let source = MemorySource::new(alloc, scripts, &[])?;
    let out = MemorySink::new(alloc, 65536, &[])?;
    let disk = new_database(rt, 0)?;
    let outcome = run_on(rt, words.as_slice(), source, out, disk);
    tell(rt, &outcome);
    Ok(outcome.into_disk())
}

// What a crash leaves behind so many calls of a run, with all that these wrote; a line as `40 RMU/BACKUP PERS 1`.
fn cut_off<R: Print + AllocGlobal + Threads + Wait + Sync>(
    rt: &R,
    line: &str,
    disk: MemoryDisk,
) -> Result<MemoryDisk, NoMemory> {
    let (calls, run) = line.split_once(' ').unwrap_or((line, ""));
    let calls = calls.parse::<u64>().unwrap_or(0);
    let last = disk.moment().number.saturating_add(calls);
    let disk = run_over(rt, run, disk)?.into_disk();
    let number = last.min(disk.moment().number);
    disk.after(Moment { number }, u32::MAX)
}

/// Each run sees what those before it committed, and the bytes that were put meanwhile. Behind `cut 40` stands a run that is stopped by a crash behind its 40th call.
pub fn tell_each<R: Print + AllocGlobal + Threads + Wait + Sync>(
    rt: &R,
    line: &str,
    disk: MemoryDisk,
) -> Result<MemoryDisk, NoMemory> {
    let mut disk = disk;
    for run in line.split('#') {
        if let Some(spot) = run.strip_prefix("byte ") {
            put_byte(&mut disk, spot);
        } else if let Some(line) = run.strip_prefix("cut ") {
            disk = cut_off(rt, line, disk)?;
        } else {
            let outcome = run_over(rt, run, disk)?;
            tell(rt, &outcome);
            disk = outcome.into_disk();
        }
    }
    Ok(disk)
}

// Two runs, of which one stands before `&`, or one run. Only what comes of the last is handed back.
fn run_both<R: Print + AllocGlobal + Threads + Wait + Sync>(
    rt: &R,
    runs: &str,
    disk: MemoryDisk,
) -> Result<Outcome, NoMemory> {
    match runs.split_once('&') {
        None => run_over(rt, runs, disk),
        Some((first, second)) => {
            let between = run_over(rt, first, disk)?;
            run_over(rt, second, between.into_disk())
        }
    }
}

/// Says the head to a new database, and does the runs over it.
pub fn tell_runs<R: Print + AllocGlobal + Threads + Wait + Sync>(
    rt: &R,
    head: &[u8],
    line: &str,
) -> Result<(), NoMemory> {
    let disk = behind_head(rt, head)?;
    tell_each(rt, line, disk)?;
    Ok(())
}

/// Does the runs over a disk of zeros.
pub fn tell_anew<R: Print + AllocGlobal + Threads + Wait + Sync>(
    rt: &R,
    line: &str,
) -> Result<(), NoMemory> {
    let disk = wide_disk(rt.alloc(), 0)?;
    tell_each(rt, line, disk)?;
    Ok(())
}

// Tells what a run wrote where it is other than what the last one wrote.
fn tell_other<R: Print + AllocGlobal>(
    rt: &R,
    outcome: &Outcome,
    last: Vec<u8>,
) -> Result<Vec<u8>, NoMemory> {
    if outcome.out.written() == last.as_slice() {
        return Ok(last);
    }
    tell(rt, outcome);
    Ok(Vec::from_slice(rt.alloc(), outcome.out.written())?)
}

// What a run writes over what a crash at a moment leaves, with none of the writes that aren't stable, with each second one, and with all.
fn tell_picks<R: Print + AllocGlobal + Threads + Wait + Sync>(
    rt: &R,
    run: &str,
    disk: &MemoryDisk,
    moment: Moment,
    last: Vec<u8>,
) -> Result<Vec<u8>, NoMemory>
    requires moment { moment.number ≤ (told_by disk.now).moment }
{
    let mut last = last;
    for pick in [0, 0x5555_5555, u32::MAX] {
        let outcome = run_both(rt, run, disk.after(moment, pick)?)?;
        last = tell_other(rt, &outcome, last)?;
    }
    Ok(last)
}

/// Says the head to a new database and does the runs over it, but for the last, which is done over what each crash in the one before it leaves.
pub fn tell_crashes<R: Print + AllocGlobal + Threads + Wait + Sync>(
    rt: &R,
    head: &[u8],
    line: &str,
) -> Result<(), NoMemory> {
    let (runs, then) = line.rsplit_once('#').unwrap_or((line, ""));
    let disk = behind_head(rt, head)?;
    let (disk, run) = match runs.rsplit_once('#') {
        None => (disk, runs),
        Some((before, run)) => (tell_each(rt, before, disk)?, run),
    };
    let first = disk.moment().number;
    let disk = run_over(rt, run, disk)?.into_disk();
    let mut last = Vec::new(rt.alloc());
    for number in first..=disk.moment().number {
        last = tell_picks(rt, then, &disk, Moment { number }, last)?;
    }
    Ok(())
}

/// Says the head to a new database and the scripts over it, once for each step of the first session, before which it dies.
pub fn tell_deaths<R: Print + AllocGlobal + Threads + Wait + Sync>(
    rt: &R,
    head: &[u8],
    line: &str,
) -> Result<(), NoMemory> {
    let alloc = rt.alloc();
    let mut last = Vec::new(alloc);
    for step in 1..MOST_STEPS {
        let run = format!(in alloc; "RDO --DIE=1:{step} {line}")?;
        let disk = behind_head(rt, head)?;
        let outcome = run_over(rt, run.as_str(), disk)?;
        if outcome.status != 8 {
            tell(rt, &outcome);
            return Ok(());
        }
        last = tell_other(rt, &outcome, last)?;
    }
    Ok(())
}
