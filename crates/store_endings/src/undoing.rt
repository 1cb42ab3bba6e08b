// What a session that died had on pages is put back, a page a step.
ghost use Rattle.std.specs.Prelude.{◌≡◌, Ok};
ghost use Rattle.line_store.specs.Seats.{IsMember};
ghost use Rattle.line_store.specs.Sights.{Steps, stepped_to, MayAnswer, IsLess};
ghost use Rattle.line_store.specs.declared.answers.Stepped.TheVariants as stepped;
ghost use Rattle.disk_store.specs.declared.member.MemberStage.TheVariants as stage;
ghost use Rattle.disk_store.specs.declared.member.Recovery.TheVariants as recovery;
ghost use Rattle.disk_store.specs.Dying.{undoing_with};
ghost use Rattle.disk_store.specs.OwnFiles.{WritesOwn};
ghost use Rattle.disk_store.specs.Seats.{stand_at, IsAtStage};
ghost use Rattle.disk_store.specs.Shown.{DoesOn, sight_of};

use disk_seats::undo;
use disk_store::{Held, MemberStage, Recovery};
use line_store::{Fault, Stepped};
use rdb_outside::Disk;
use rdb_types::Session;

// What is left of a recovery with so many before-images to be put back.
fn undoing(left: u32) -> Recovery
    ensures { result ≡ undoing_with left }
{
    if left == 0 {
        Recovery::Restoring
    } else {
        Recovery::Undoing { left }
    }
}

/// A step of the recovery of a session that died: before-images are put back, the last one first, up to the first whose page is written. Behind the last one they are to be made stable. Where a device call fails it begins again with all of them.
pub fn put_back<D: Disk>(
    disk: &mut D,
    held: &mut Held,
    s: Session,
    commits: bool,
    left: u32,
) -> Result<Stepped, Fault>
    requires member { IsMember s.number }
    requires died { IsAtStage held.old.members s.number (stage.Dead commits (recovery.Undoing left)) }
    ensures answers { MayAnswer (stand_at held.old.members s.number) result }
    ensures comes { DoesOn s.number (stepped_to (stand_at held.old.members s.number) result)
        (Steps s.number result) (D.view disk.old) held.old (D.view disk.new) held.new }
    ensures less { result ≡ Ok stepped.More → IsLess s.number (sight_of (D.view disk.old) held.old) (sight_of (D.view disk.new) held.new) }

    // One slot at most is written, of the database's own files.
    ensures writes { WritesOwn (D.view disk.old) (D.view disk.new) }
    ensures tables { held.new.tables ≡ held.old.tables }
{
    if left == 0 {
        let recovery = Recovery::Restoring;
        held.set_dead(s, MemberStage::Dead { commits, recovery });
        return Ok(Stepped::More);
    }
    let mut page = [0; 1024];
    let member = held.member(s);
    let tsn = member.tsn;
    let all = member.journalled;
    let limits = held.limits();
    match undo(disk, limits.pages, s.number, tsn, left, &mut page) {
        Ok(rest) => {
            let recovery = undoing(rest);
            held.set_dead(s, MemberStage::Dead { commits, recovery });
            Ok(Stepped::More)
        }
        Err(fault) => {
            let recovery = Recovery::Undoing { left: all };
            held.set_dead(s, MemberStage::Dead { commits, recovery });
            Err(fault)
        }
    }
}
