// Sessions in threads.
ghost use Rattle.std.specs.Prelude.{[]};

use crate::runs::{new_database, run_past};
use crate::texts::{scripts_in, tell_written, words_in};
use rdb_drive::{Act, Gate, Point};
use rdb_outside::{MemorySink, MemorySource};
use rdb_types::{NoMemory, Session};
use std::sync::Wait;
use std::sync::atomic::{AtomicU64, Ordering};
use std::thread::{Threads, yield_now};

const MOST_TURNS: u32 = 1_000_000;

/// Holds two sessions at their third statements until each has seen the other there.
#[derive(Drop)]
struct Meeting {
    /// The sessions that have come, each as a bit.
    come: AtomicU64,
    /// How many have seen the other.
    seen: AtomicU64,
}

impl Gate for Meeting {
    ghost mortals = { λ _. [] };

    fn pass(&self, s: Session, _step: u64, point: Point) -> Act {
        if point != Point::Statement(3) {
            return Act::Go;
        }
        let own = if s.number == 1 { 1 } else { 2 };
        self.come.fetch_or(own, Ordering::SeqCst);
        for _ in 0..MOST_TURNS {
            if self.come.load(Ordering::SeqCst) == 3 {
                self.seen.fetch_add(1, Ordering::SeqCst);
                return Act::Go;
            }
            yield_now();
        }
        Act::Go
    }
}

/// Runs two sessions that meet, and tells how many have seen the other.
pub fn tell_meeting<R: Print + AllocGlobal + Threads + Wait + Sync>(
    rt: &R,
    line: &str,
) -> Result<(), NoMemory> {
    let alloc = rt.alloc();
    let gate = Meeting {
        come: AtomicU64::new(0),
        seen: AtomicU64::new(0),
    };
    let words = words_in(alloc, line)?;
    let source = MemorySource::new(alloc, scripts_in(alloc, line)?, &[])?;
    let out = MemorySink::new(alloc, 64, &[])?;
    let disk = new_database(rt, 0)?;
    let done = run_past(rt, words.as_slice(), source, out, disk, &gate);
    tell_written(rt, done.out.written());
    let (status, seen) = (done.status, gate.seen.load(Ordering::SeqCst));
    let _ = println!(rt; "  status {status}, seen by {seen}");
    Ok(())
}
