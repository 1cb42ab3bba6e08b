//! Sessions that were stopped, and what a disk that is watched tells of them.
ghost use Rattle.std.specs.Prelude.{◌≡◌, ◌⊎◌, true, None, Some};
ghost use Rattle.rdb_outside.specs.Causes.{Rose};
ghost use Rattle.script_streams.specs.Fronts.{WritesFront};
ghost use Rattle.rdb_top.specs.Runs.{transcripts};
ghost use Rattle.workload_runs.specs.Statuses.{stopped_status};

use crate::scripts::write_transcripts;
use line_store::Fault;
use rdb_account::Event;
use rdb_outside::{Disk, Sink};
use std::alloc::Global;
use watched_disk::{Beginning, WatchedDisk};
use workload_runs::{Halt, LineRun, seen, status_of_halt};

/// What was run over a watched disk, over the disk. That a call of it stopped the sessions is told where one failed.
pub fn unwatched<B: Beginning, D: Disk + Drop>(ran: LineRun<WatchedDisk<B, D>>) -> LineRun<D>
    ensures disk { result.disk ≡ (ran.disk).disk }
    ensures events { result.events ≡ ran.events }
    ensures is_whole { result.is_whole ≡ ran.is_whole }
    ensures fault { result.fault ≡ ran.fault }
    ensures halt { (result.halt ≡ ran.halt) ⊎ (result.halt ≡ None) }
    ensures stopped { result.halt ≡ Some (Halt.Device Fault.Failed) → Rose B.faults (D.view result.disk).faults }
{
    let LineRun {
        disk,
        events,
        is_whole,
        fault,
        halt,
    } = ran;
    let halt = seen(halt, disk.has_failed());
    LineRun {
        disk: disk.into_disk(),
        events,
        is_whole,
        fault,
        halt,
    }
}

/// The status of a run whose sessions were stopped. Where a device failed in a recovery, or a slot or a line is none of its kind, what they were answered is written still.
pub fn status_stopped<K: Sink>(
    alloc: Global,
    halt: Option<Halt>,
    events: &[Event],
    sessions: u32,
    out: &mut K,
) -> u8
    ensures status { result ≡ stopped_status halt }
    ensures front { K.tells out.old ≡ true → WritesFront (K.taken out.old) (K.taken out.new) (transcripts sessions events.now) }
{
    let status = status_of_halt(halt);
    if status != 5 {
        let _written = write_transcripts(alloc, events, sessions, out);
    }
    status
}
