// A session begins to copy.
ghost use Rattle.std.specs.Prelude.{◌≡◌, ◌≤◌, ◌+◌, ◌^◌, ℕ, [], None, OnOk, OnErr};
ghost use Rattle.line_store.specs.Seats.{IsMember, IsBackupNumber, outside, copying};
ghost use Rattle.line_store.specs.Sights.{Does, Stays, BeginsCopying};
ghost use Rattle.disk_store.specs.declared.member.MemberStage.TheVariants as stage;
ghost use Rattle.disk_store.specs.Seats.{IsAtStage, stand_at};
ghost use Rattle.store_copies.specs.Memory.{copied_by};
ghost use Rattle.store_copies.specs.Shown.{LeavesOthers, copied_sight};

use crate::{Copies, FormerDisk};
use backup_steps::Copying;
use disk_store::{Held, begin_reading};
use rdb_outside::Disk;
use rdb_types::{NoMemory, Session};

// The greatest number that a group may have.
const LAST_GROUP: u64 = 1 << 62;

// The number of the last group, where this one comes next.
fn last_group(next: u64) -> u64
    ensures allowed { result ≤ 2 ^ 62 }
    ensures before { 1 ≤ next → next ≤ 2 ^ 62 + 1 → result + 1 ≡ next }
{
    next.saturating_sub(1).min(LAST_GROUP)
}

/// A session begins a read-only transaction, whose lines are copied into the backup of this number. The backup's last group is the one before the next. No device call.
pub fn begin_copy<O: FormerDisk, D: Disk>(
    disk: &D,
    held: &mut Held,
    copies: &mut Copies,
    s: Session,
    number: u32,
) -> Result<(), NoMemory>
    requires member { IsMember s.number }
    requires outside { stand_at held.old.members s.number ≡ outside }
    requires none { copied_by copies.old s.number ≡ None }
    requires number { IsBackupNumber number }
    ensures ok { OnOk result (Does s.number (copying number []) (BeginsCopying s.number number) (copied_sight O.former (D.view disk.now) held.old copies.old) (copied_sight O.former (D.view disk.now) held.new copies.new)) }
    ensures err { OnErr result (Stays s.number (copied_sight O.former (D.view disk.now) held.old copies.old) (copied_sight O.former (D.view disk.now) held.new copies.new)) }
    ensures reads { OnOk result (IsAtStage held.new.members s.number stage.Reading) }
    ensures leaves { LeavesOthers s.number held.old held.new }
    ensures others { (t : ℕ) → (t ≡ s.number → ⊥) → copied_by copies.new t ≡ copied_by copies.old t }
    ensures nothing { OnErr result (copied_by copies.new s.number ≡ None) }
{
    held.sound();
    let limits = held.limits();
    let last = last_group(held.next_group().number);
    begin_reading(disk, held, s)?;
    copies.note_last(s, number);
    copies.set(s, Some(Copying::start(disk, number, limits, last)));
    Ok(())
}
