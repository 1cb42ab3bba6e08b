// What the steps of a change make of memory.
ghost use Rattle.std.specs.Prelude.{◌≡◌, ◌≤◌, ◌⊎◌, ℕ, Some, slice_get, OnOk, OnErr, IsErrOf};
ghost use Rattle.rdb_types.specs.declared.file.FileId.{FileId as File};
ghost use Rattle.rdb_outside.specs.Causes.{Rose};
ghost use Rattle.line_store.specs.Seats.{IsMember};
ghost use Rattle.line_store.specs.Shelves.{Shelf};
ghost use Rattle.line_moves.specs.Changes.{IsPlaceOf};
ghost use Rattle.disk_store.specs.declared.member.Member.{Member as Sits};
ghost use Rattle.disk_store.specs.declared.member.MemberStage.TheVariants.{Changing};
ghost use Rattle.disk_store.specs.ChangeSteps.{BreaksOff, IsNext, PassesNext, PushesNext, Unjournalled, change_ended, journalled_more, named_now, spent};
ghost use Rattle.disk_store.specs.Memory.{with_member};
ghost use Rattle.disk_store.specs.Seats.{IsAtStage};
ghost use Rattle.disk_store.specs.Shown.{Shown};
ghost use Rattle.disk_store.specs.Sound.{IsUsedIn, wanted_in};

use crate::{Held, MemberStage};
use line_moves::Place;
use line_store::Fault;
use rdb_outside::Disk;
use rdb_types::{Dbkey, Session};
use reader_lines::{Wanted, push_aside};

// What is left of the slots that are set aside, where a line of this file has a chain now.
fn spend(aside: Wanted, file: u32, chain: u32) -> Wanted
    requires { 1 ≤ wanted_in file aside }
    ensures { result ≡ spent chain file aside }
{
    if chain == 0 {
        return aside;
    }
    let mut left = aside;
    match file {
        1 => left.catalog -= 1,
        2 => left.relations -= 1,
        _ => left.indexes -= 1,
    }
    left
}

impl Held {
    /// The session's header names its transaction.
    pub fn note_named(&mut self, s: Session)
        requires member { IsMember s.number }
        requires changes { IsAtStage self.old.members s.number Changing }
        ensures { (m : Sits) × (slice_get self.old.members s.number ≡ Some m)
            × (self.new ≡ with_member s.number (named_now m) self.old) }
    {
        let member = &mut self.members[s.number as usize];
        member.named = true;
    }

    /// One line more has a before-image.
    pub fn count_journalled(&mut self, s: Session)
        requires member { IsMember s.number }
        requires less { Unjournalled self.old.members s.number }
        ensures { (m : Sits) × (slice_get self.old.members s.number ≡ Some m)
            × (self.new ≡ with_member s.number (journalled_more m) self.old) }
    {
        let member = &mut self.members[s.number as usize];
        let _keys = member.written.keys();
        member.journalled += 1;
    }

    // Pushes the session's next line aside, which was used: one is of the slots that are set aside for the session.
    fn push_used<D: Disk>(
        &mut self,
        disk: &mut D,
        s: Session,
        key: Dbkey,
        place: Place,
    ) -> Result<(), Fault>
        requires member { IsMember s.number }
        requires next { IsNext self.old.members s.number key }
        requires place { IsPlaceOf key place }
        requires used { IsUsedIn self.old.tables place.file key }
        ensures pushed { OnOk result (PushesNext s.number key (D.view disk.old) (D.view disk.new) self.old self.new) }
        ensures breaks { OnErr result (BreaksOff s.number key (D.view disk.old) (D.view disk.new) self.old self.new) }
        ensures failed { IsErrOf result Fault.Failed
            → Rose (D.view disk.old).faults (D.view disk.new).faults }

        // No slot is refused.
        ensures bad { (file : File) (slot : ℕ) → IsErrOf result (Fault.Bad file slot)
            → (h : Shelf) → Shown (D.view disk.old) self.old h → ⊥ }
    {
        let mut chain = 0;
        let member = &mut self.members[s.number as usize];
        let tsn = member.tsn;
        let answer = push_aside(disk, &mut self.slots, &mut chain, key, place, tsn);
        member.aside = spend(member.aside, place.file, chain);
        if let Err(fault) = answer {
            member.pushed += 1;
            member.stage = MemberStage::Broken;
            return Err(fault);
        }
        member.written.set_chain(key, chain);
        let _keys = member.written.keys();
        member.pushed += 1;
        Ok(())
    }

    // The session's next line was never used, and has nothing to push.
    fn pass_next(&mut self, s: Session, key: Dbkey)
        requires member { IsMember s.number }
        requires next { IsNext self.old.members s.number key }
        requires never { (file : ℕ) → IsUsedIn self.old.tables file key → ⊥ }
        ensures { PassesNext s.number key self.old self.new }
    {
        let member = &mut self.members[s.number as usize];
        member.written.set_chain(key, 0);
        let _keys = member.written.keys();
        member.pushed += 1;
    }

    /// Pushes the session's next line aside, into a slot that is set aside for it: one read, and one write without a barrier. A line that was never used, by the tables, has nothing to push, and isn't read. Behind a fault the transaction can only die, and a slot that was taken stays its own.
    pub fn push_next<D: Disk>(
        &mut self,
        disk: &mut D,
        s: Session,
        key: Dbkey,
        place: Place,
    ) -> Result<(), Fault>
        requires member { IsMember s.number }
        requires next { IsNext self.old.members s.number key }
        requires place { IsPlaceOf key place }
        ensures pushed { OnOk result (PushesNext s.number key (D.view disk.old) (D.view disk.new) self.old self.new
            ⊎ (PassesNext s.number key self.old self.new × (disk.new ≡ disk.old))) }
        ensures breaks { OnErr result (BreaksOff s.number key (D.view disk.old) (D.view disk.new) self.old self.new) }
        ensures failed { IsErrOf result Fault.Failed
            → Rose (D.view disk.old).faults (D.view disk.new).faults }

        // No slot is refused.
        ensures bad { (file : File) (slot : ℕ) → IsErrOf result (Fault.Bad file slot)
            → (h : Shelf) → Shown (D.view disk.old) self.old h → ⊥ }
    {
        if self.tables.was_used(place.file, key) {
            return self.push_used(disk, s, key, place);
        }
        self.pass_next(s, key);
        Ok(())
    }

    /// The session's change is through: no line is left to be pushed aside, and the slots that it didn't take are given back.
    pub fn end_change(&mut self, s: Session)
        requires member { IsMember s.number }
        requires changes { IsAtStage self.old.members s.number Changing }
        ensures { (m : Sits) × (slice_get self.old.members s.number ≡ Some m)
            × (self.new ≡ change_ended s.number m self.old) }
    {
        let member = &mut self.members[s.number as usize];
        let count = member.written.keys().len();
        self.slots.leave(member.aside);
        member.aside = Wanted {
            catalog: 0,
            relations: 0,
            indexes: 0,
        };
        member.pushed = count as u32;
        member.stage = MemberStage::Writing;
    }
}
