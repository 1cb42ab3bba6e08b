// The steps of a recovery, by what is left of it.
ghost use Rattle.std.specs.Prelude.{◌≡◌, Ok};
ghost use Rattle.line_store.specs.Seats.{IsMember};
ghost use Rattle.line_store.specs.Sights.{Steps, stepped_to, MayAnswer, IsLess};
ghost use Rattle.line_store.specs.declared.answers.Stepped.TheVariants as stepped;
ghost use Rattle.store_endings.specs.disk_store.declared.member.MemberStage.TheVariants as stage;
ghost use Rattle.store_endings.specs.disk_store.Grown.{Grow};
ghost use Rattle.store_endings.specs.disk_store.OwnFiles.{WritesOwn};
ghost use Rattle.store_endings.specs.disk_store.Seats.{stand_at, IsAtStage};
ghost use Rattle.store_endings.specs.disk_store.Shown.{DoesOn, sight_of};

use crate::judge;
use line_store::{Fault, Stepped};
use rdb_outside::Disk;
use rdb_types::Session;
use store_endings::{Held, Recovery, bury, put_back, restore};

/// A step of the recovery of a session that died: one write or one barrier at most, and no memory.
pub fn recover<D: Disk>(
    disk: &mut D,
    held: &mut Held,
    s: Session,
    commits: bool,
    recovery: Recovery,
) -> Result<Stepped, Fault>
    requires member { IsMember s.number }
    requires died { IsAtStage held.old.members s.number (stage.Dead commits recovery) }
    ensures answers { MayAnswer (stand_at held.old.members s.number) result }
    ensures comes { DoesOn s.number (stepped_to (stand_at held.old.members s.number) result)
        (Steps s.number result) (D.view disk.old) held.old (D.view disk.new) held.new }
    ensures less { result ≡ Ok stepped.More → IsLess s.number (sight_of (D.view disk.old) held.old) (sight_of (D.view disk.new) held.new) }

    // One slot at most is written, of the database's own files.
    ensures writes { WritesOwn (D.view disk.old) (D.view disk.new) }

    // Pages of areas stay theirs, of their classes.
    ensures grows { Grow held.old.tables held.new.tables }
{
    match recovery {
        Recovery::Ending => bury(disk, held, s),
        Recovery::Judging => judge(disk, held, s, commits),
        Recovery::Undoing { left } => put_back(disk, held, s, commits, left),
        Recovery::Restoring => restore(disk, held, s, commits),
    }
}
