// Slots of the snapshot files are given back in memory: behind the end of a transaction, and of a reader.
ghost use Rattle.std.specs.Prelude.{◌≤◌};
ghost use Rattle.line_store.specs.Seats.{IsMember};
ghost use Rattle.disk_store.specs.declared.member.MemberStage.TheVariants.{Outside};
ghost use Rattle.disk_store.specs.Giving.{GivesSlots, LeavesAside, MayGive, SiftsSlots};
ghost use Rattle.disk_store.specs.Seats.{IsAtStage};

use crate::{Held, Member, MemberStage};
use rdb_types::{Session, Tsn};
use reader_lines::{MayWant, SnapshotSlots, Wanted, is_wanted};

impl MayWant for Member {
    ghost use Rattle.disk_store.specs.Giving.{IsUnwantedBy};

    ghost unwanted = { λ m tsn. IsUnwantedBy tsn m };

    // It is its own, and goes on, or it is a reader that doesn't see it.
    fn wants(&self, tsn: Tsn) -> bool {
        match self.stage {
            MemberStage::Reading => !self.reader.sees(tsn),
            _ => self.goes_on() && self.tsn.number == tsn.number,
        }
    }
}

// Gives back the slots that hold what a transaction pushed, where no member wants that.
fn give_pushed(slots: &mut SnapshotSlots, members: &[Member], tsn: Tsn)
    requires { 1 ≤ tsn.number }
    ensures { MayGive tsn.number members.now slots.old slots.new }
{
    if is_wanted(members, tsn) {
        return;
    }
    slots.give_pushed(tsn);
}

impl Held {
    // Gives back the slots that are set aside for a session: no line of it is left to be pushed aside.
    fn leave_aside(&mut self, s: Session)
        requires member { IsMember s.number }
        requires outside { IsAtStage self.old.members s.number Outside }
        ensures { LeavesAside s.number self.old self.new }
    {
        let member = &mut self.members[s.number as usize];
        let count = member.written.keys().len();
        self.slots.leave(member.aside);
        member.aside = Wanted {
            catalog: 0,
            relations: 0,
            indexes: 0,
        };
        member.pushed = count as u32;
    }

    /// Gives back the slots that are set aside for a session, and those that its transaction pushed into where no member wants them. The time grows as the slots in use, and is constant where a member wants them.
    pub fn give_slots(&mut self, s: Session)
        requires member { IsMember s.number }
        requires outside { IsAtStage self.old.members s.number Outside }
        ensures { GivesSlots s.number self.old self.new }
    {
        let tsn = self.members[s.number as usize].tsn;
        give_pushed(&mut self.slots, self.members.as_slice(), tsn);
        self.leave_aside(s);
    }

    /// Gives back the slots that are set aside for a session, and all that hold what no member wants. The time grows as the slots in use.
    pub fn give_unwanted(&mut self, s: Session)
        requires member { IsMember s.number }
        requires outside { IsAtStage self.old.members s.number Outside }
        ensures { SiftsSlots s.number self.old self.new }
    {
        self.slots.give_unwanted(self.members.as_slice());
        self.leave_aside(s);
    }
}
