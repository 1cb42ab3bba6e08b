// What the store does for a session, a step at a time.
ghost use Rattle.std.specs.Prelude.{◌≡◌, false, true, is_some, Ok};
ghost use Rattle.line_store.specs.Seats.{done_at, is_changing, IsMember};
ghost use Rattle.line_store.specs.Sights.{Does, IsBackedBy, IsLess};
ghost use Rattle.line_store.specs.declared.answers.Progress.TheVariants.{Done, More};
ghost use Rattle.stage_steps.specs.Stores.{HasGoneOn, worked_to};

use line_store::{Fault, LineStore, Progress, Stepped};
use rdb_types::Session;

/// One step of what the store does for a session, where that is told to be done and is no change.
///
/// Fails where a device call does, or a slot isn't what it has to be; then the session stands as it did.
pub fn work_on<L: LineStore>(store: &mut L, s: Session) -> Result<Progress, Fault>
    requires member { IsMember s.number }
    requires under_way { is_some (done_at ((L.sight store.old).stand s.number)) ≡ true }
    requires plain { is_changing ((L.sight store.old).stand s.number) ≡ false }
    ensures does { Does s.number (worked_to ((L.sight store.old).stand s.number) result) (HasGoneOn s.number result) (L.sight store.old) (L.sight store.new) }
    ensures less { result ≡ Ok More → IsLess s.number (L.sight store.old) (L.sight store.new) }
    ensures backed { result ≡ Ok Done → IsBackedBy s.number (L.sight store.old) (L.sight store.new) }
{
    match store.step(s) {
        Ok(Stepped::Done) => Ok(Progress::Done),
        Ok(Stepped::More) => Ok(Progress::More),
        Ok(Stepped::Committed(_)) | Ok(Stepped::Recovered { .. }) => unreachable!(),
        Err(fault) => Err(fault),
    }
}
