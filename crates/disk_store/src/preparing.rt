// The room of a commit.
ghost use Rattle.std.specs.Prelude.{◌≡◌, ◌<◌, ◌≤◌, ◌+◌, ◌⊎◌, true, false, slice_get, [], Some, MatchOption, OnOk, OnErr, IfErr};
ghost use Rattle.line_store.specs.Seats.{IsMember, IsWriting, prepared, group_of, lines_written};
ghost use Rattle.line_store.specs.Shelves.{Shelf};
ghost use Rattle.line_store.specs.Calls.{MayStopCommit};
ghost use Rattle.line_store.specs.Sights.{Prepares};
ghost use Rattle.member_memory.specs.Memory.{writes_in};
ghost use Rattle.disk_store.specs.declared.member.Member.{Member as Sits};
ghost use Rattle.disk_store.specs.Preparing.{aside_of, aside_beside};
ghost use Rattle.disk_store.specs.Seats.{stand_at};
ghost use Rattle.disk_store.specs.Shown.{DoesOn, StaysOn, Shown};

use crate::{Held, Member, MemberStage};
use line_store::CommitStop;
use rdb_outside::Disk;
use rdb_types::Session;

// How many slots of the journal are set aside for a session's commit that is prepared or under way: one for each line, and one for the commit.
fn aside_for(member: &Member) -> usize
    ensures { result ≡ aside_of (Some member.now) }
{
    let lines = member.written.keys().len();
    match member.stage {
        MemberStage::Prepared | MemberStage::Committing(_) => 1 + lines,
        MemberStage::Dead { commits, .. } => if commits { 1 + lines } else { 0 },
        _ => 0,
    }
}

// What is left of so many slots beside those that are set aside for others; None where there are fewer.
fn room_beside(members: &[Member], s: Session, room: usize) -> Option<usize>
    ensures { MatchOption result (room < aside_beside s.number members.now) (λ left. left + aside_beside s.number members.now ≡ room) }
{
    let mut left = room;
    for place in 1..17 {
        if place != s.number as usize {
            if let Some(member) = members.get(place) {
                left = left.checked_sub(aside_for(member))?;
            }
        }
    }
    Some(left)
}

impl Held {
    // Whether the journal has room for the group of a session's lines, beside the groups that are committed and what is set aside for others. What writes nothing isn't refused.
    fn has_room(&self, s: Session) -> bool
        requires { IsMember s.number }
        ensures full { result ≡ false → (m : Sits) → slice_get self.now.members s.number ≡ Some m → (1 ≤ lines_written (writes_in m.written.lines))
            × (self.now.limits.slots < self.now.next.slot + (aside_beside s.number self.now.members + group_of (writes_in m.written.lines))) }
        ensures fits { result ≡ true → (m : Sits) → slice_get self.now.members s.number ≡ Some m → (lines_written (writes_in m.written.lines) ≡ 0)
            ⊎ (self.now.next.slot + (aside_beside s.number self.now.members + group_of (writes_in m.written.lines)) ≤ self.now.limits.slots) }
    {
        let lines = self.members[s.number as usize].written.keys().len();
        if lines == 0 {
            return true;
        }
        let Some(unused) = (self.limits.slots as usize).checked_sub(self.next.slot as usize) else {
            return false;
        };
        let Some(room) = unused.checked_sub(1 + lines) else {
            return false;
        };
        room_beside(&self.members, s, room).is_some()
    }
}

/// Sets aside the room of a commit in the after-image journal: a slot for each line that was written, and one for the commit. The class of each line's page is noted, which takes the memory that the commit wants. Where there is no room or no memory, nothing changes.
pub fn prepare<D: Disk>(_disk: &D, held: &mut Held, s: Session) -> Result<(), CommitStop>
    requires member { IsMember s.number }
    requires writing { IsWriting (stand_at held.old.members s.number) }
    ensures ok { OnOk result (DoesOn s.number (prepared []) (Prepares s.number) (D.view _disk.now) held.old (D.view _disk.now) held.new) }
    ensures err { OnErr result (StaysOn s.number (D.view _disk.now) held.old (D.view _disk.now) held.new) }
    ensures cause { IfErr result (λ stop. (h : Shelf) → Shown (D.view _disk.now) held.old h → MayStopCommit h s.number stop) }
    ensures tables { held.new.tables ≡ held.old.tables }
{
    if held.has_room(s) {
        let Ok(classes) = held.classes_of(s) else {
            return Err(CommitStop::NoMemory);
        };
        held.set_prepared(s, classes);
        return Ok(());
    }
    Err(CommitStop::AijFull(held.limits.slots))
}
