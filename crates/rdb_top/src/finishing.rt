//! How a run ends: its status, and what is handed back.
ghost use Rattle.std.specs.Prelude.{◌≡◌, ◌⊎◌, true, false, None, Some, [], ◌++◌};
ghost use Rattle.rdb_outside.specs.Causes.{Rose};
ghost use Rattle.script_streams.specs.Fronts.{WritesFront};
ghost use Rattle.workload_replies.specs.Replies.{has_death};
ghost use Rattle.rdb_top.specs.Runs.{IsWhole, IsWritten, is_script_status, transcripts};
ghost use Rattle.workload_runs.specs.Statuses.{IsBadOpening, IsOverLine, IsOverSlot, stopped_status};

use crate::scripts::write_transcripts;
use crate::stopping::status_stopped;
use line_opening::OpeningFault;
use line_store::Fault;
use rdb_account::{Event, Events};
use rdb_outside::Sink;
use rdb_types::Items;
use std::alloc::Global;
use workload_replies::some_died;
use workload_runs::{Halt, LineRun, status_of_fault};

/// How a run ended, and what happened in it.
#[derive(Drop)]
pub struct Finish<D: Drop> {
    pub status: u8,
    pub disk: D,
    pub events: Events,
    /// The events of the runs of sessions before the last one.
    pub earlier: Items<Events>,
    /// Why the sessions were stopped, if they were.
    pub halt: Option<Halt>,
}

/// What is handed back of a command that says no script.
pub fn unsaid<D: Drop>(alloc: Global, status: u8, disk: D) -> Finish<D>
    ensures status { result.status ≡ status }
    ensures disk { result.disk ≡ disk }
    ensures events { result.events ≡ [] }
    ensures earlier { result.earlier ≡ [] }
    ensures halt { result.halt ≡ None }
{
    Finish {
        status,
        disk,
        events: Items::new(alloc),
        earlier: Items::new(alloc),
        halt: None,
    }
}

// The status of a run that is whole, by that of the writing: some session died, and nothing else is to be told.
fn status_whole(written: u8, events: &[Event]) -> u8
    requires written { (written ≡ 0) ⊎ (written ≡ 5) ⊎ (written ≡ 6) }
    ensures status { (result ≡ 0) ⊎ (result ≡ 5) ⊎ (result ≡ 6) ⊎ (result ≡ 8) }
    ensures wrote { IsWritten result → written ≡ 0 }
    ensures sink { result ≡ 6 → written ≡ 6 }
    ensures died { result ≡ 8 → has_death events.now ≡ true }
    ensures lived { result ≡ 0 → has_death events.now ≡ false }
{
    if written == 0 && some_died(events) {
        8
    } else {
        written
    }
}

/// Writes what the sessions were answered, where all came to their ends, or a device, a slot or a line stopped them.
pub fn finish_scripts<D: Drop, K: Sink>(
    alloc: Global,
    ran: LineRun<D>,
    sessions: u32,
    out: &mut K,
) -> Finish<D>
    ensures status { is_script_status result.status ≡ true }
    ensures read { (result.status ≡ 2) ⊎ (result.status ≡ 10) → ⊥ }
    ensures disk { result.disk ≡ ran.disk }
    ensures events { result.events ≡ ran.events }
    ensures earlier { result.earlier ≡ [] }
    ensures whole { IsWhole result.status → ran.is_whole ≡ true }
    ensures died { result.status ≡ 8 → has_death ran.events ≡ true }
    ensures lived { result.status ≡ 0 → has_death ran.events ≡ false }
    ensures failed { result.status ≡ 3 → (ran.fault ≡ Some OpeningFault.Failed) ⊎ (ran.halt ≡ Some (Halt.Device Fault.Failed)) }
    ensures bad { result.status ≡ 4 → IsBadOpening ran.fault ⊎ IsOverSlot result.halt ⊎ IsOverLine result.halt }
    ensures halt { (result.halt ≡ ran.halt) ⊎ (result.halt ≡ None) }
    ensures halted { (why : Halt) → result.halt ≡ Some why → result.status ≡ stopped_status (Some why) }
    ensures sink { result.status ≡ 6 → Rose (K.faults out.old) (K.faults out.new) }
    ensures written { K.tells out.old ≡ true → IsWritten result.status → K.taken out.new ≡ K.taken out.old ++ transcripts sessions ran.events }
    ensures front { K.tells out.old ≡ true → WritesFront (K.taken out.old) (K.taken out.new) (transcripts sessions ran.events) }
{
    let LineRun {
        disk,
        events,
        is_whole,
        fault,
        halt,
    } = ran;
    let (status, halt) = match fault {
        Some(fault) => (status_of_fault(fault), None),
        None => {
            if is_whole {
                let written = write_transcripts(alloc, events.as_slice(), sessions, out);
                (status_whole(written, events.as_slice()), None)
            } else {
                let status = status_stopped(alloc, halt, events.as_slice(), sessions, out);
                (status, halt)
            }
        }
    };
    Finish {
        status,
        disk,
        events,
        earlier: Items::new(alloc),
        halt,
    }
}
