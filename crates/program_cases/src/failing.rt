// Runs of which each call of the disk fails in turn.
use crate::runs::{Fails, NEW_CALLS, NONE, run_failing, tell};
use crate::texts::{scripts_in, words_in};
use rdb_outside::Disk;
use rdb_types::NoMemory;
use std::sync::Wait;
use std::thread::Threads;

/// More calls than a run of the cases makes.
const MOST_CALLS: u32 = 10_000;

/// Does a run over a new database once for each call of the disk in it, which fails, and once more, where none does. What comes of it is told where it is other than for the call before.
pub fn tell_failures<R: Print + AllocGlobal + Threads + Wait + Sync>(
    rt: &R,
    line: &str,
) -> Result<(), NoMemory> {
    let alloc = rt.alloc();
    let mut status = 0;
    let mut last = Vec::new(alloc);
    for call in 1..MOST_CALLS {
        let words = words_in(alloc, line)?;
        let fails = Fails { disk: call, ..NONE };
        let outcome = run_failing(rt, words.as_slice(), scripts_in(alloc, line)?, fails)?;
        if outcome.status != status || outcome.out.written() != last.as_slice() {
            tell(rt, &outcome);
            status = outcome.status;
            last = Vec::from_slice(alloc, outcome.out.written())?;
        }
        if outcome.disk.moment().number < u64::from(NEW_CALLS + call) {
            return Ok(());
        }
    }
    Ok(())
}
