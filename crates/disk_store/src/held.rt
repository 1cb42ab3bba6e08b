// What a store keeps in memory.
ghost use Rattle.std.specs.Prelude.{◌≡◌, ◌==◌, ◌<◌, ℕ, Bool, true, false, Some, length, slice_get};
ghost use Rattle.line_store.specs.Seats.{IsMember};
ghost use Rattle.member_rooms.specs.member_steps.declared.committing.CommitTurn.{CommitTurn as Turn};
ghost use Rattle.member_rooms.specs.member_steps.declared.committing.CommitTurn.TheVariants.{Entering};
ghost use Rattle.disk_store.specs.declared.member.Member.{Member as Sits};
ghost use Rattle.disk_store.specs.declared.member.MemberStage.TheVariants.{Committing, Dead, Prepared};
ghost use Rattle.disk_store.specs.Commits.{is_free, is_flying, HasSome, IsReady, KeepsCommits};
ghost use Rattle.disk_store.specs.Dying.{forgotten};
ghost use Rattle.disk_store.specs.Memory.{at_stage, with_member, with_number};
ghost use Rattle.disk_store.specs.Seats.{IsAtStage};
ghost use Rattle.disk_store.specs.Sound.{IsSound};

use crate::{Member, MemberStage};
use line_opening::NextGroup;
use member_memory::MemberLines;
use member_rooms::{CommitTurn, PageTable};
use rdb_types::{Limits, Session, Tsn};
use reader_lines::SnapshotSlots;
use std::alloc::Global;
use std::marker::Model;

/// The number of the next transaction; the ceiling that each root has which a crash may leave: numbers below it may be drawn; the ceiling of the root that was written last, which isn't lower; and what each root says of the groups that a backup had applied.
#[derive(Clone, Copy, Debug, PartialEq, Eq)]
pub struct Numbers {
    pub next: u64,
    pub ceiling: u64,
    pub written: u64,
    pub applied: u64,
}

/// The pages of the three area files.
#[derive(Drop)]
pub struct Tables {
    pub catalog: PageTable,
    pub relations: PageTable,
    pub indexes: PageTable,
}

/// All that a store keeps beside its disk: the limits of the files; the numbers; where the next group is written; pages and slots of the snapshot files; and of each session, in the place of its number, where it is.
#[derive(Drop)]
pub struct Held {
    pub(crate) limits: Limits,
    pub(crate) numbers: Numbers,
    pub(crate) next: NextGroup,
    pub(crate) tables: Tables,
    pub(crate) slots: SnapshotSlots,
    pub(crate) members: Vec<Member>,
    pub(crate) alloc: Global,
}

impl Model for Held {
    ghost use Rattle.std.specs.Prelude.{◌≡◌, length};
    ghost use Rattle.disk_store.specs.Memory.{StoreMemory};
    ghost use Rattle.disk_store.specs.Sound.{IsSound};
    ghost use Rattle.disk_store.specs.Commits.{KeepsCommits};

    ghost Value = { StoreMemory };

    ghost view = { λ h. record { limits = h.limits; numbers = h.numbers; next = h.next; tables = h.tables; slots = h.slots; members = h.members.items } };

    ghost invariant = { λ h. (length h.members.items ≡ 17) × IsSound (record { limits = h.limits; numbers = h.numbers; next = h.next; tables = h.tables; slots = h.slots; members = h.members.items }) × KeepsCommits (record { limits = h.limits; numbers = h.numbers; next = h.next; tables = h.tables; slots = h.slots; members = h.members.items }) };
}

impl Held {
    /// What is true of the memory, whatever the disk tells.
    pub fn sound(&self)
        ensures { IsSound self.now }
    {
        let _ = &self.limits;
    }

    /// What it keeps of commits.
    pub fn keeps_commits(&self)
        ensures { KeepsCommits self.now }
    {
        let _ = &self.limits;
    }

    /// Where the next group is written.
    pub fn next_group(&self) -> NextGroup
        ensures { result ≡ self.now.next }
    {
        self.next
    }

    /// The limits of the files.
    pub fn limits(&self) -> Limits
        ensures { result ≡ self.now.limits }
    {
        self.limits
    }

    /// The pages of the area files.
    pub fn tables(&self) -> &Tables
        ensures { result.now ≡ self.now.tables }
    {
        &self.tables
    }

    /// A session's member.
    pub fn member(&self, s: Session) -> &Member
        requires { IsMember s.number }
        ensures { slice_get self.now.members s.number ≡ Some result.now }
    {
        &self.members[s.number as usize]
    }

    /// The members of all sessions, each in the place of its number.
    pub fn members(&self) -> &[Member]
        ensures { result.now ≡ self.now.members }
    {
        self.members.as_slice()
    }

    /// A session comes to another stage, at which no commit of it is prepared, under way or to be judged.
    pub fn set_stage(&mut self, s: Session, next: MemberStage)
        requires member { IsMember s.number }
        requires free { is_free next ≡ true }
        ensures within { s.number < length self.old.members }
        ensures comes { (m : Sits) × (slice_get self.old.members s.number ≡ Some m)
            × (self.new ≡ with_member s.number (at_stage next m) self.old) }
    {
        let member = &mut self.members[s.number as usize];
        member.stage = next;
    }

    /// A session is dead. Where its commit is under way, it was so before, and where it is to be judged it wrote a line.
    pub fn set_dead(&mut self, s: Session, next: MemberStage)
        requires member { IsMember s.number }
        requires dead { (commits : Bool) × (left : _) × (next ≡ Dead commits left) }
        requires flies { is_flying next ≡ true → (m : Sits) → slice_get self.old.members s.number ≡ Some m → is_flying m.stage ≡ true }
        requires ready { (m : Sits) → slice_get self.old.members s.number ≡ Some m → IsReady next self.old.tables (at_stage next m) }
        ensures within { s.number < length self.old.members }
        ensures comes { (m : Sits) × (slice_get self.old.members s.number ≡ Some m)
            × (self.new ≡ with_member s.number (at_stage next m) self.old) }
    {
        let member = &mut self.members[s.number as usize];
        member.stage = next;
    }

    // A session that is prepared begins to commit, while nobody else does.
    pub(crate) fn begin_commit(&mut self, s: Session)
        requires member { IsMember s.number }
        requires prepared { IsAtStage self.old.members s.number Prepared }
        requires alone { (t : ℕ) (m : Sits) → (t == s.number) ≡ false → slice_get self.old.members t ≡ Some m → is_flying m.stage ≡ false }
        ensures within { s.number < length self.old.members }
        ensures comes { (m : Sits) × (slice_get self.old.members s.number ≡ Some m)
            × (self.new ≡ with_member s.number (at_stage (Committing (Entering 0)) m) self.old) }
    {
        let member = &mut self.members[s.number as usize];
        member.stage = MemberStage::Committing(CommitTurn::Entering(0));
    }

    /// A commit comes to another turn.
    pub fn set_turn(&mut self, s: Session, next: CommitTurn)
        requires member { IsMember s.number }
        requires commits { (turn : Turn) × IsAtStage self.old.members s.number (Committing turn) }
        requires some { (m : Sits) → slice_get self.old.members s.number ≡ Some m → HasSome next (length m.written.keys) }
        ensures within { s.number < length self.old.members }
        ensures comes { (m : Sits) × (slice_get self.old.members s.number ≡ Some m)
            × (self.new ≡ with_member s.number (at_stage (Committing next) m) self.old) }
    {
        let member = &mut self.members[s.number as usize];
        member.stage = MemberStage::Committing(next);
    }

    // A session that begins draws the next number.
    pub(crate) fn draw_number(&mut self, s: Session)
        requires member { IsMember s.number }
        requires below { self.old.numbers.next < self.old.numbers.ceiling }
        ensures { (m : Sits) × (slice_get self.old.members s.number ≡ Some m)
            × (self.new ≡ with_number s.number m self.old) }
    {
        let number = self.numbers.next;
        let _ceiling = self.numbers.ceiling;
        let member = &mut self.members[s.number as usize];
        member.stage = MemberStage::Writing;
        member.tsn = Tsn { number };
        member.written = MemberLines::new(self.alloc);
        member.journalled = 0;
        member.pushed = 0;
        self.numbers.next = number + 1;
    }

    /// A session comes to another stage, at which no commit of it is prepared, under way or to be judged, and its lines are forgotten.
    pub fn forget(&mut self, s: Session, next: MemberStage)
        requires member { IsMember s.number }
        requires free { is_free next ≡ true }
        ensures { (m : Sits) × (slice_get self.old.members s.number ≡ Some m)
            × (self.new ≡ with_member s.number (forgotten next m) self.old) }
    {
        let member = &mut self.members[s.number as usize];
        member.stage = next;
        member.written = MemberLines::new(self.alloc);
    }
}
