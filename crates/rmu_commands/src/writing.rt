// A text written to the sink.
ghost use Rattle.std.specs.Prelude.{◌≡◌, ◌⊎◌, ◌++◌, true};
ghost use Rattle.rdb_outside.specs.Causes.{Rose};
ghost use Rattle.script_streams.specs.Fronts.{WritesFront};

use rdb_outside::Sink;
use script_streams::write_all;

/// Writes a text, and answers the status: the one that is given, or 6 where a call on the sink failed.
pub(crate) fn write_text<K: Sink>(status: u8, text: &[u8], out: &mut K) -> u8
    ensures status { (result ≡ status) ⊎ (result ≡ 6) }
    ensures whole { K.tells out.old ≡ true → (result ≡ 6 → ⊥) → K.taken out.new ≡ K.taken out.old ++ text.now }
    ensures front { K.tells out.old ≡ true → WritesFront (K.taken out.old) (K.taken out.new) text.now }
    ensures sink { (status ≡ 6 → ⊥) → result ≡ 6 → Rose (K.faults out.old) (K.faults out.new) }
{
    match write_all(out, text) {
        Ok(()) => status,
        Err(_) => 6,
    }
}
