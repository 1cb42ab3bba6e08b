// The store, and its calls.
ghost use Rattle.std.specs.Prelude.{◌≡◌, ℕ, [], None, IfOk};
ghost use Rattle.memory_store.specs.Kept.{empty_seats, copier_of};

use crate::committed::Committed;
use crate::copiers::Copiers;
use crate::lines::lines_of;
use crate::seat::Seat;
use area_files::{AreaFull, storage_area};
use line_store::{ChangeStop, CommitStop, Fault, LineStore, Progress, ReadStop, Stepped};
use line_view::{Known, Write};
use member_memory::AddStop;
use rdb_types::{Dbkey, Limits, Moment, NoMemory, Session};
use std::alloc::Global;
use std::marker::Model;

/// Seats are numbered as the sessions are, from 1 to 16.
const SEATS: usize = 17;

/// A page of an area file that holds lines.
#[derive(Clone, Copy)]
pub(crate) struct PageUse {
    pub(crate) file: u32,
    pub(crate) page: u32,
    pub(crate) area: u32,
    pub(crate) class: u16,
}

/// Lines in memory. A line is read in time that grows with the logarithm of their count; a scan and a reader's start take a copy of all
/// lines, and a room is looked for page by page.
#[derive(Drop)]
pub struct MemoryStore {
    pub(crate) alloc: Global,
    pub(crate) limits: Limits,
    pub(crate) committed: Committed,
    pub(crate) seats: Vec<Seat>,
    pub(crate) copiers: Copiers,
    pub(crate) pages: Vec<PageUse>,
}

impl Model for MemoryStore {
    ghost use Rattle.memory_store.specs.Kept.{Kept, AreKept};

    ghost Value = { Kept };

    ghost view = { λ m. record { limits = m.limits; lines = m.committed.lines; room = m.committed.room; seats = m.seats.items; copiers = m.copiers; pages = m.pages.items } };

    ghost invariant = { λ m. AreKept m.committed.room m.seats.items };
}

fn seats(alloc: Global) -> Result<Vec<Seat>, NoMemory>
    ensures { IfOk result (λ made. made.items ≡ empty_seats) }
{
    let mut seats = Vec::new(alloc);
    for _place in 0..SEATS {
        seats.push(Seat::Outside)?;
    }
    Ok(seats)
}

impl MemoryStore {
    /// A store without lines. Its area files may have as many pages, and a transaction may write as many lines, as the limits of pages and of entries say.
    pub fn new(alloc: Global, limits: Limits) -> Result<MemoryStore, NoMemory>
        ensures lines { IfOk result (λ m. m.lines ≡ []) }
        ensures seats { IfOk result (λ m. m.seats ≡ empty_seats) }
        ensures copier { IfOk result (λ m. (n : ℕ) → copier_of m n ≡ None) }
        ensures pages { IfOk result (λ m. m.pages ≡ []) }
        ensures limits { IfOk result (λ m. m.limits ≡ limits) }
    {
        let seats = seats(alloc)?;
        let committed = Committed::new(alloc)?;
        Ok(MemoryStore {
            alloc,
            limits,
            committed,
            seats,
            copiers: Copiers::new(),
            pages: Vec::new(alloc),
        })
    }
}

impl LineStore for MemoryStore {
    ghost use Rattle.std.proofs.Common.{ap, sym};
    ghost use Rattle.line_store.specs.Sights.{bare};
    ghost use Rattle.memory_store.specs.Kept.{sight_of, none_left};

    ghost sight = { sight_of };

    ghost agrees = { λ store h shown s. ap (λ shelf. bare (shelf.seat s)) (sym shown) };

    ghost counts = { λ store. record { same = λ h shown s. ap (λ shelf. shelf.steps s) (sym shown); few = λ s. none_left } };

    ghost stands = { λ store h shown lines left. absurd left };

    ghost opens = { λ store h shown lines left. absurd left };

    fn begin(&mut self, s: Session) {
        self.put(s, Seat::Beginning);
    }

    fn begin_reading(&mut self, s: Session) -> Result<(), NoMemory> {
        let start = self.committed.copied(self.alloc)?;
        self.put(s, Seat::Reading(start));
        Ok(())
    }

    fn begin_copy(&mut self, s: Session, number: u32) -> Result<(), NoMemory> {
        let start = self.committed.copied(self.alloc)?;
        self.note_copier(s, number);
        self.put(s, Seat::Copying(number, start));
        Ok(())
    }

    fn end_reading(&mut self, s: Session) {
        self.put(s, Seat::Outside);
    }

    fn learn_line(
        &mut self,
        s: Session,
        key: Dbkey,
        known: &mut Known,
    ) -> Result<Progress, ReadStop> {
        let image = self.line_seen(s, key);
        match known.learn_line(self.alloc, key, image) {
            Ok(()) => Ok(Progress::Done),
            Err(_) => Err(ReadStop::NoMemory),
        }
    }

    fn learn_area(
        &mut self,
        s: Session,
        area: u32,
        known: &mut Known,
    ) -> Result<Progress, ReadStop> {
        let Ok(lines) = self.seen(s) else {
            return Err(ReadStop::NoMemory);
        };
        let Ok(found) = lines_of(self.alloc, lines.as_slice(), area) else {
            return Err(ReadStop::NoMemory);
        };
        match known.learn_area(self.alloc, area, &found) {
            Ok(()) => Ok(Progress::Done),
            Err(_) => Err(ReadStop::NoMemory),
        }
    }

    fn room(
        &self,
        s: Session,
        area: u32,
        class: u16,
        from: Option<Dbkey>,
    ) -> Result<Dbkey, AreaFull> {
        let Some(file) = storage_area(area) else {
            unreachable!()
        };
        if let Some(key) = self.next_room(s, file, area, class, from) {
            return Ok(key);
        }
        let behind = match from {
            Some(from) => from.page,
            None => 0,
        };
        match self.new_page(s, file, area, behind) {
            Some(page) => Ok(Dbkey {
                area,
                page,
                line: 0,
            }),
            None => Err(AreaFull {
                limit: self.limits.pages,
            }),
        }
    }

    fn take_room(&mut self, _s: Session, key: Dbkey, class: u16) -> Result<bool, NoMemory> {
        let Some(file) = storage_area(key.area) else {
            unreachable!()
        };
        if self.is_taken(file, key.page) {
            return Ok(self.has_page(file, key, class));
        }
        self.take_page(PageUse {
            file,
            page: key.page,
            area: key.area,
            class,
        })?;
        Ok(true)
    }

    fn change(&mut self, s: Session, writes: &[Write]) -> Result<(), ChangeStop> {
        let limit = self.limits.entries;
        let (seat, changed) = self.take(s).changing(limit, writes);
        self.put(s, seat);
        match changed {
            Ok(()) => Ok(()),
            Err(AddStop::Full) => Err(ChangeStop::RujFull(limit)),
            Err(AddStop::NoMemory) => Err(ChangeStop::NoMemory),
        }
    }

    fn prepare(&mut self, s: Session) -> Result<(), CommitStop> {
        let Ok(()) = self.make_room() else {
            return Err(CommitStop::NoMemory);
        };
        let seat = self.take(s).preparing();
        self.put(s, seat);
        Ok(())
    }

    fn give_back(&mut self, s: Session) {
        let seat = self.take(s).giving_back();
        self.put(s, seat);
    }

    fn commit(&mut self, s: Session) {
        let seat = self.take(s).committing();
        self.put(s, seat);
    }

    fn roll_back(&mut self, s: Session) {
        let seat = self.take(s).rolling_back();
        self.put(s, seat);
    }

    fn die(&mut self, s: Session) {
        let seat = self.take(s).died(self.alloc);
        self.put(s, seat);
    }

    fn step(&mut self, s: Session) -> Result<Stepped, Fault> {
        match self.take(s) {
            Seat::Committing(lines) => {
                self.land(lines);
                self.put(s, Seat::Closing);
                Ok(Stepped::Committed(Moment { number: 0 }))
            }
            seat => {
                let (next, stepped) = seat.stepped(self.alloc);
                self.put(s, next);
                Ok(stepped)
            }
        }
    }

    fn is_at_barrier(&self, s: Session) -> bool {
        matches!(self.seats.get(s.number as usize), Some(Seat::Committing(_)))
    }

    fn moment(&self) -> Moment {
        Moment { number: 0 }
    }
}
