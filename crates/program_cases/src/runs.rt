// A run over objects in memory.
ghost use Rattle.std.specs.Prelude.{◌≡◌, []};

use crate::texts::{tell_written, words_in};
use command_words::{Command, command_of, script_words};
use rdb_drive::{Act, Gate, Point};
use rdb_outside::{MemoryDisk, MemorySink, MemorySource};
use rdb_top::run;
use rdb_types::{NoMemory, Session, Word};
use std::alloc::Global;
use std::marker::Brand;
use std::sync::Wait;
use std::thread::Threads;

#[derive(Drop)]
struct OpenGate {}

impl Gate for OpenGate {
    ghost mortals = { λ _. [] };

    fn pass(&self, _s: Session, _step: u64, _point: Point) -> Act {
        Act::Go
    }
}

/// What a run left.
pub struct Outcome {
    pub status: u8,
    pub disk: MemoryDisk,
    pub out: MemorySink,
}

// By hand, so that it is one call wherever one is let go.
impl Drop for Outcome {
    fn drop(self) {
        let Outcome {
            status: _,
            disk: _disk,
            out: _out,
        } = self;
    }
}

impl Outcome {
    /// The disk alone.
    pub fn into_disk(self) -> MemoryDisk {
        let Outcome {
            status: _,
            disk,
            out: _out,
        } = self;
        disk
    }
}

/// Runs a command line past a gate that has no session die.
pub fn run_past<R: Print + AllocGlobal + Threads + Wait + Sync, G: Gate + Sync>(
    rt: &R,
    words: &[Word],
    source: MemorySource,
    out: MemorySink,
    disk: MemoryDisk,
    gate: &G,
) -> Outcome
    requires calm { G.mortals gate.now ≡ [] }
{
    let mut source = source;
    let mut out = out;
    let finish = run::<R, Brand, MemoryDisk, MemorySource, MemorySink, G>(
        rt,
        words,
        disk,
        &mut source,
        &mut out,
        gate,
    );
    Outcome {
        status: finish.status,
        disk: finish.disk,
        out,
    }
}

/// The same past a gate that is always open.
pub fn run_on<R: Print + AllocGlobal + Threads + Wait + Sync>(
    rt: &R,
    words: &[Word],
    source: MemorySource,
    out: MemorySink,
    disk: MemoryDisk,
) -> Outcome {
    run_past(rt, words, source, out, disk, &OpenGate {})
}

/// The calls of each device that fail.
#[derive(Clone, Copy, Debug)]
pub struct Fails {
    pub source: u32,
    pub sink: u32,
    pub disk: u32,
}

/// No call fails: calls are counted from 1.
pub const NONE: Fails = Fails {
    source: 0,
    sink: 0,
    disk: 0,
};

/// The room of a disk for scripts: slots in each file, as many as the usual limits of a database want, and calls of all runs over it.
const SLOTS: u32 = 524_288;

const CALLS: u32 = 65536;

/// A NEW that is done makes so many calls.
pub const NEW_CALLS: u32 = 27;

/// A disk of zeros, with room for a database and for scripts. The call with this number fails, 0 for none.
pub fn wide_disk(alloc: Global, fails: u32) -> Result<MemoryDisk, NoMemory> {
    MemoryDisk::new(alloc, SLOTS, CALLS, &[fails])
}

/// A disk with a new database, and with room for scripts. The call with this number behind those of NEW fails, 0 for none.
pub fn new_database<R: Print + AllocGlobal + Threads + Wait + Sync>(
    rt: &R,
    fails: u32,
) -> Result<MemoryDisk, NoMemory> {
    let alloc = rt.alloc();
    let words = words_in(alloc, "NEW --PAGES=1000 PERS")?;
    let source = MemorySource::new(alloc, Vec::new(alloc), &[])?;
    let out = MemorySink::new(alloc, 0, &[])?;
    let fails = if fails == 0 {
        0
    } else {
        fails.saturating_add(NEW_CALLS)
    };
    let disk = wide_disk(alloc, fails)?;
    Ok(run_on(rt, words.as_slice(), source, out, disk).into_disk())
}

// Whether the words are a workload, which says scripts of its own.
fn is_workload(words: &[Word]) -> bool {
    matches!(command_of(words), Some(Command::Workload(_)))
}

/// Runs a command line: scripts over a new database, a workload over a wide disk of zeros, and what says none over a small one.
pub fn run_failing<R: Print + AllocGlobal + Threads + Wait + Sync>(
    rt: &R,
    words: &[Word],
    scripts: Vec<Vec<u8>>,
    fails: Fails,
) -> Result<Outcome, NoMemory> {
    let alloc = rt.alloc();
    let source = MemorySource::new(alloc, scripts, &[fails.source])?;
    let out = MemorySink::new(alloc, 65536, &[fails.sink])?;
    let (_, said) = script_words(words);
    let disk = if said > 0 {
        new_database(rt, fails.disk)?
    } else if is_workload(words) {
        wide_disk(alloc, fails.disk)?
    } else {
        MemoryDisk::new(alloc, 4, 256, &[fails.disk])?
    };
    Ok(run_on(rt, words, source, out, disk))
}

/// Tells what a run wrote, and its status where that isn't 0.
pub fn tell<R: Print>(rt: &R, outcome: &Outcome) {
    tell_written(rt, outcome.out.written());
    let status = outcome.status;
    if status != 0 {
        let _ = println!(rt; "  status {status}");
    }
}
