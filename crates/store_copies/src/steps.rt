// A step of what a session copies.
ghost use Rattle.std.specs.Prelude.{◌≡◌, ◌≢◌, ℕ, Ok, Some, true, false};
ghost use Rattle.line_store.specs.declared.answers.Stepped.TheVariants as stepped;
ghost use Rattle.line_store.specs.Seats.{IsMember};
ghost use Rattle.line_store.specs.Sights.{Does, Steps, stepped_to, MayAnswer, IsLess, IsBackedBy};
ghost use Rattle.backup_making.specs.declared.making.Stage.TheVariants.{Ended};
ghost use Rattle.backup_steps.specs.next_lines.partial_backup.declared.copying.Copying.{Copying as Copied};
ghost use Rattle.disk_store.specs.declared.member.MemberStage.TheVariants as stage;
ghost use Rattle.disk_store.specs.Seats.{IsAtStage, stand_at};
ghost use Rattle.store_copies.specs.Memory.{copied_by};
ghost use Rattle.store_copies.specs.Shown.{copied_sight};

use crate::{Copies, FormerDisk, next_line_in};
use backup_making::Stage;
use backup_steps::{Copying, copy_next};
use disk_store::Held;
use line_store::{Fault, Stepped};
use rdb_outside::Disk;
use rdb_types::Session;

// Whether a backup has come to its end.
fn has_ended(copying: &Copying) -> bool
    ensures yes { result ≡ true → copying.now.backup.stage ≡ Ended }
    ensures no { result ≡ false → copying.now.backup.stage ≢ Ended }
{
    match copying.backup.stage {
        Stage::Ended => true,
        _ => false,
    }
}

/// A step of what a session copies: a line more is read and copied, or the backup goes on without one. One write or one barrier at most, and no memory. Where another session began a backup of its number meanwhile, it is done, without a device call. Behind a fault the step is made again.
pub fn copy_step<O: FormerDisk, D: Disk>(
    disk: &mut D,
    held: &Held,
    copies: &mut Copies,
    s: Session,
) -> Result<Stepped, Fault>
    requires member { IsMember s.number }
    requires copies { (c : Copied) × (copied_by copies.old s.number ≡ Some c) }
    requires reads { IsAtStage held.now.members s.number stage.Reading }
    ensures answers { MayAnswer ((copied_sight O.former (D.view disk.old) held.now copies.old).stand s.number) result }
    ensures comes { Does s.number (stepped_to ((copied_sight O.former (D.view disk.old) held.now copies.old).stand s.number) result) (Steps s.number result)
        (copied_sight O.former (D.view disk.old) held.now copies.old) (copied_sight O.former (D.view disk.new) held.now copies.new) }
    ensures less { result ≡ Ok stepped.More → IsLess s.number (copied_sight O.former (D.view disk.old) held.now copies.old) (copied_sight O.former (D.view disk.new) held.now copies.new) }
    ensures backed { result ≡ Ok stepped.Done → IsBackedBy s.number (copied_sight O.former (D.view disk.old) held.now copies.old) (copied_sight O.former (D.view disk.new) held.now copies.new) }
    ensures others { (t : ℕ) → (t ≡ s.number → ⊥) → copied_by copies.new t ≡ copied_by copies.old t }
{
    held.sound();
    let Some(mut copying) = copies.of(s) else {
        unreachable!()
    };
    if !copies.is_last(s, copying.backup.number) {
        copies.leave(s);
        return Ok(Stepped::Done);
    }
    let next = next_line_in(held.tables(), copying.from);
    let limit = held.limits().snaps;
    let reader = &held.member(s).reader;
    if let Err(fault) = copy_next(disk, limit, reader, next, &mut copying) {
        return Err(fault);
    }
    if has_ended(&copying) {
        copies.finish(s, copying.backup.number);
        return Ok(Stepped::Done);
    }
    copies.set(s, Some(copying));
    Ok(Stepped::More)
}
