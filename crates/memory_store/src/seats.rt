// The seats of a store.
ghost use Rattle.std.specs.Prelude.{◌≡◌, ◌≤◌, ◌<◌, ◌+◌, ℕ, Some, true, slice_get, OnOk};
ghost use Rattle.line_store.specs.Sights.{copier_behind};
ghost use Rattle.line_view.specs.Writes.{laid_all};
ghost use Rattle.line_store.specs.Seats.{IsMember};
ghost use Rattle.member_memory.specs.Memory.{writes_in};
ghost use Rattle.memory_store.specs.declared.seat.Seat.TheVariants.{Outside};
ghost use Rattle.memory_store.specs.Kept.{seat_of, is_ready, count_ready, with_seat, with_copiers, copier_of, with_stock, MayHave};

use crate::MemoryStore;
use crate::seat::Seat;
use member_memory::MemberLines;
use rdb_types::{NoMemory, Session};
use std::mem::replace;

impl MemoryStore {
    /// Takes out what is held for a session.
    pub(crate) fn take(&mut self, s: Session) -> Seat
        requires { IsMember s.number }
        ensures was { slice_get self.old.seats s.number ≡ Some result }
        ensures now { self.new ≡ with_seat s.number Outside self.old }
        ensures few { count_ready self.new.seats < 17 }
        ensures ready { is_ready (seat_of result) ≡ true → count_ready self.new.seats < self.new.room }
    {
        replace(&mut self.seats[s.number as usize], Seat::Outside)
    }

    /// Holds this for a session.
    pub(crate) fn put(&mut self, s: Session, seat: Seat)
        requires member { IsMember s.number }
        requires may { MayHave self.old seat }
        ensures now { self.new ≡ with_seat s.number seat self.old }
        ensures here { slice_get self.new.seats s.number ≡ Some seat }
    {
        self.seats[s.number as usize] = seat;
    }

    /// The session begins the backup of this number.
    pub(crate) fn note_copier(&mut self, s: Session, number: u32)
        requires { number ≤ 9 }
        ensures same { self.new ≡ with_copiers self.new.copiers self.old }
        ensures copier { (n : ℕ) → copier_of self.new n ≡ copier_behind s.number (Some number) (copier_of self.old) n }
    {
        self.copiers.begin(number, s);
    }

    /// Makes room for the commits of all seats.
    pub(crate) fn make_room(&mut self) -> Result<(), NoMemory>
        ensures same { self.new ≡ with_stock self.old.lines self.new.room self.old }
        ensures room { OnOk result (17 ≤ self.new.room) }
    {
        self.committed.settle()
    }

    /// Commits what a transaction wrote.
    pub(crate) fn land(&mut self, lines: MemberLines)
        requires { count_ready self.old.seats < self.old.room }
        ensures { self.new ≡ with_stock (laid_all (writes_in lines.lines) self.old.lines) self.new.room self.old }
    {
        self.committed.land(lines);
    }
}
