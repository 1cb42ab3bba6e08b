// Read-only transactions begin and end.
ghost use Rattle.std.specs.Prelude.{◌≡◌, [], true, Some, map, slice_get, IfOk, OnOk, OnErr};
ghost use Rattle.line_versions.specs.Versions.{Start};
ghost use Rattle.line_store.specs.Seats.{IsMember, IsReader, outside, reading};
ghost use Rattle.line_store.specs.Calls.{Moves};
ghost use Rattle.line_store.specs.Sights.{BeginsReading};
ghost use Rattle.disk_store.specs.declared.member.Member.{Member as Sits};
ghost use Rattle.disk_store.specs.declared.member.MemberStage.TheVariants.{Outside};
ghost use Rattle.disk_store.specs.Commits.{is_free};
ghost use Rattle.disk_store.specs.Memory.{with_member};
ghost use Rattle.disk_store.specs.Readers.{goes_at, keeping, numbers_going};
ghost use Rattle.disk_store.specs.Seats.{IsAtStage, stand_at};
ghost use Rattle.disk_store.specs.Shown.{DoesOn, StaysOn};

use crate::{Held, Member, MemberStage, Recovery};
use member_rooms::CommitTurn;
use rdb_outside::Disk;
use rdb_types::{NoMemory, Session, Tsn};
use std::alloc::Global;
use version_reading::Reader;

impl Member {
    // Whether its read-write transaction is open on the disk.
    pub(crate) fn goes_on(&self) -> bool
        ensures { result ≡ goes_at self.now.stage }
    {
        match self.stage {
            MemberStage::Outside => false,
            MemberStage::Beginning(_) => false,
            MemberStage::Writing => true,
            MemberStage::Changing => true,
            MemberStage::Broken => true,
            MemberStage::Prepared => true,
            MemberStage::Committing(_) => true,
            MemberStage::RollingBack => false,
            MemberStage::Closing => false,
            MemberStage::Reading => false,
            MemberStage::Dead {
                commits: _,
                recovery,
            } => match recovery {
                Recovery::Ending => false,
                Recovery::Judging => true,
                Recovery::Undoing { left: _ } => true,
                Recovery::Restoring => true,
            },
        }
    }
}

// The numbers of the transactions that go on.
fn going(alloc: Global, members: &[Member]) -> Result<Vec<Tsn>, NoMemory>
    ensures { IfOk result (λ going. map (λ t. t.number) going.items ≡ numbers_going members.now) }
{
    let mut going = Vec::new(alloc);
    for member in members {
        if member.goes_on() {
            going.push(member.tsn)?;
        }
    }
    Ok(going)
}

impl Held {
    // A session comes to another stage, at which no commit of it is prepared, under way or to be judged, and this is kept for its reader.
    fn keep_start(&mut self, s: Session, next: MemberStage, reader: Reader)
        requires member { IsMember s.number }
        requires free { is_free next ≡ true }
        ensures { (m : Sits) × (slice_get self.old.members s.number ≡ Some m)
            × (self.new ≡ with_member s.number (keeping next reader m) self.old) }
    {
        let member = &mut self.members[s.number as usize];
        member.stage = next;
        member.reader = reader;
    }
}

/// A session begins a read-only transaction, which sees the lines that are committed now. The memory that is taken holds a number for each read-write transaction that goes on.
pub fn begin_reading<D: Disk>(_disk: &D, held: &mut Held, s: Session) -> Result<(), NoMemory>
    requires member { IsMember s.number }
    requires outside { stand_at held.old.members s.number ≡ outside }
    ensures ok { OnOk result (DoesOn s.number (reading []) (BeginsReading s.number) (D.view _disk.now) held.old (D.view _disk.now) held.new) }
    ensures err { OnErr result (StaysOn s.number (D.view _disk.now) held.old (D.view _disk.now) held.new) }
    ensures tables { held.new.tables ≡ held.old.tables }
{
    let Ok(active) = going(held.alloc, &held.members) else {
        return Err(NoMemory {});
    };
    let next = Tsn {
        number: held.numbers.next,
    };
    held.keep_start(s, MemberStage::Reading, Reader::new(next, active));
    Ok(())
}

/// A session ends its read-only transaction. The slots that only it wanted are still in use: `give_unwanted` gives them back.
pub fn leave_reading<D: Disk>(_disk: &D, held: &mut Held, s: Session)
    requires member { IsMember s.number }
    requires reader { IsReader (stand_at held.old.members s.number) }
    ensures comes { DoesOn s.number outside (Moves s.number outside) (D.view _disk.now) held.old (D.view _disk.now) held.new }
    ensures outside { IsAtStage held.new.members s.number Outside }
    ensures tables { held.new.tables ≡ held.old.tables }
{
    let none = Reader::new(Tsn { number: 0 }, Vec::new(held.alloc));
    held.keep_start(s, MemberStage::Outside, none);
}
