// What a session that died had on pages is put back, and made stable.
ghost use Rattle.std.specs.Prelude.{◌≡◌, Ok};
ghost use Rattle.line_store.specs.Seats.{IsMember};
ghost use Rattle.line_store.specs.Sights.{Steps, stepped_to, MayAnswer, IsLess};
ghost use Rattle.line_store.specs.declared.answers.Stepped.TheVariants as stepped;
ghost use Rattle.disk_store.specs.declared.member.MemberStage.TheVariants as stage;
ghost use Rattle.disk_store.specs.declared.member.Recovery.TheVariants as recovery;
ghost use Rattle.disk_store.specs.OwnFiles.{WritesOwn};
ghost use Rattle.disk_store.specs.Seats.{stand_at, IsAtStage};
ghost use Rattle.disk_store.specs.Shown.{DoesOn, sight_of};

use disk_seats::settle;
use disk_store::{Held, MemberStage, Recovery};
use line_store::{Fault, Stepped};
use rdb_outside::Disk;
use rdb_types::Session;

/// A step of the recovery of a session that died, behind which all its before-images are back for good: its transaction has ended, and its header is to be closed.
pub fn restore<D: Disk>(
    disk: &mut D,
    held: &mut Held,
    s: Session,
    commits: bool,
) -> Result<Stepped, Fault>
    requires member { IsMember s.number }
    requires died { IsAtStage held.old.members s.number (stage.Dead commits recovery.Restoring) }
    ensures answers { MayAnswer (stand_at held.old.members s.number) result }
    ensures comes { DoesOn s.number (stepped_to (stand_at held.old.members s.number) result)
        (Steps s.number result) (D.view disk.old) held.old (D.view disk.new) held.new }
    ensures less { result ≡ Ok stepped.More → IsLess s.number (sight_of (D.view disk.old) held.old) (sight_of (D.view disk.new) held.new) }

    // One slot at most is written, of the database's own files.
    ensures writes { WritesOwn (D.view disk.old) (D.view disk.new) }
    ensures tables { held.new.tables ≡ held.old.tables }
{
    let Ok(()) = settle(disk) else {
        return Err(Fault::Failed);
    };
    held.set_dead(
        s,
        MemberStage::Dead {
            commits,
            recovery: Recovery::Ending,
        },
    );
    Ok(Stepped::More)
}
