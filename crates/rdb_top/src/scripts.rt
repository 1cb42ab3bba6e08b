//! The scripts of the sessions, read and written.
ghost use Rattle.std.specs.Prelude.{◌≡◌, ◌≢◌, ◌≤◌, ◌<◌, ◌^◌, ◌⊎◌, ◌++◌, ℕ, true, length, All, IfOk, IsOk, OnOk, IsErrOf};
ghost use Rattle.rdb_outside.specs.Causes.{Rose};
ghost use Rattle.rdb_drive.specs.Boards.{IsSession};
ghost use Rattle.script_queues.specs.Scripts.{whole_script};
ghost use Rattle.script_streams.specs.Fronts.{WritesFront};
ghost use Rattle.rdb_top.specs.Runs.{scripts_of, transcripts};

use rdb_account::{Event, transcript};
use rdb_outside::{Sink, Source};
use rdb_types::{Bytes, NoMemory, Session};
use script_queues::script_of;
use script_streams::{ReadStop, read_script, write_all};
use session_states::WholeScript;
use std::alloc::Global;

// The script of a session.
fn read_whole<S: Source>(
    alloc: Global,
    source: &mut S,
    session: u32,
) -> Result<WholeScript, ReadStop>
    ensures script { S.tells source.old ≡ true → IfOk result (λ script. script ≡ whole_script (S.left source.old session)) }
    ensures few { IfOk result (λ script. length script.items < 2 ^ 32) }
    ensures told { S.tells source.new ≡ S.tells source.old }
    ensures others { S.tells source.old ≡ true → (other : ℕ) → other ≢ session → S.left source.new other ≡ S.left source.old other }
    ensures short { S.tells source.old ≡ true → IsOk result → length (S.left source.old session) ≤ 1048576 }
    ensures long { S.tells source.old ≡ true → IsErrOf result ReadStop.TooLong → 1048576 < length (S.left source.old session) }
    ensures later { S.faults source.old ≤ S.faults source.new }
    ensures cause { IsErrOf result ReadStop.Failed → Rose (S.faults source.old) (S.faults source.new) }
{
    let text = read_script(alloc, source, session)?;
    match script_of(alloc, text.as_slice()) {
        Ok(script) => Ok(script),
        Err(_) => Err(ReadStop::OutOfMemory),
    }
}

/// The scripts of the sessions from 1 to a count.
pub fn read_scripts<S: Source>(
    alloc: Global,
    source: &mut S,
    sessions: u32,
) -> Result<Vec<WholeScript>, ReadStop>
    ensures items { S.tells source.old ≡ true → IfOk result (λ scripts. scripts.items ≡ scripts_of (S.left source.old) sessions) }
    ensures length { IfOk result (λ scripts. length scripts.items ≡ sessions) }
    ensures few { IfOk result (λ scripts. All (λ script. length script.items < 2 ^ 32) scripts.items) }
    ensures short { S.tells source.old ≡ true → IsOk result → (s : ℕ) → IsSession sessions s → length (S.left source.old s) ≤ 1048576 }
    ensures long { S.tells source.old ≡ true → IsErrOf result ReadStop.TooLong → (s : ℕ) × IsSession sessions s × (1048576 < length (S.left source.old s)) }
    ensures cause { IsErrOf result ReadStop.Failed → Rose (S.faults source.old) (S.faults source.new) }
{
    let mut scripts = Vec::new(alloc);
    for done in 0..sessions {
        let script = read_whole(alloc, source, done + 1)?;
        if scripts.push(script).is_err() {
            return Err(ReadStop::OutOfMemory);
        }
    }
    Ok(scripts)
}

// All transcripts, one after another.
fn render_all(alloc: Global, events: &[Event], sessions: u32) -> Result<Bytes, NoMemory>
    ensures { IfOk result (λ bytes. bytes ≡ transcripts sessions events.now) }
{
    let mut bytes = Bytes::new(alloc);
    for done in 0..sessions {
        transcript(events, Session { number: done + 1 }, &mut bytes)?;
    }
    Ok(bytes)
}

/// Writes what the sessions were answered, in their order, and gives the status.
pub fn write_transcripts<K: Sink>(alloc: Global, events: &[Event], sessions: u32, out: &mut K) -> u8
    ensures status { (result ≡ 0) ⊎ (result ≡ 5) ⊎ (result ≡ 6) }
    ensures whole { K.tells out.old ≡ true → result ≡ 0 → K.taken out.new ≡ K.taken out.old ++ transcripts sessions events.now }
    ensures front { K.tells out.old ≡ true → WritesFront (K.taken out.old) (K.taken out.new) (transcripts sessions events.now) }
    ensures cause { result ≡ 6 → Rose (K.faults out.old) (K.faults out.new) }
{
    match render_all(alloc, events, sessions) {
        Err(_) => 5,
        Ok(bytes) => match write_all(out, bytes.as_slice()) {
            Ok(()) => 0,
            Err(_) => 6,
        },
    }
}
