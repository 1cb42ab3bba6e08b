ghost use Rattle.std.specs.Prelude.{◌≡◌, ◌≤◌, true, ◌++◌, OnOk, OnErr};
ghost use Rattle.rdb_outside.specs.Causes.{Rose};
ghost use Rattle.script_streams.specs.Fronts.{WritesFront};

use rdb_outside::{Failed, Sink};

/// Writes all of these bytes.
pub fn write_all<K: Sink>(sink: &mut K, bytes: &[u8]) -> Result<(), Failed>
    ensures whole { K.tells sink.old ≡ true → OnOk result (K.taken sink.new ≡ K.taken sink.old ++ bytes.now) }
    ensures front { K.tells sink.old ≡ true → WritesFront (K.taken sink.old) (K.taken sink.new) bytes.now }
    ensures later { K.faults sink.old ≤ K.faults sink.new }
    ensures cause { OnErr result (Rose (K.faults sink.old) (K.faults sink.new)) }
{
    let mut at = 0;
    while at < bytes.len() {
        match sink.write(&bytes[at..]) {
            Ok(count) => at += count,
            Err(failed) => return Err(failed),
        }
    }
    Ok(())
}
