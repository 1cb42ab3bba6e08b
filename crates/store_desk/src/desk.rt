// A store, and where its sessions stand.
ghost use Rattle.std.specs.Prelude.{◌≡◌, ℕ, true};
ghost use Rattle.line_store.specs.Seats.{IsMember, outside};
ghost use Rattle.store_desk.specs.Places.{Fits};

use crate::answer::{Answer, is_class, read};
use crate::place::Place;
use area_files::storage_area;
use line_store::{ChangeStop, CommitStop, LineStore, Stepped};
use line_view::{Known, Write};
use rdb_types::{Dbkey, Session};

/// A store, of whose sessions it is known where they stand: so no call is made that isn't allowed there.
pub struct Desk<L: LineStore + Drop> {
    store: L,
    /// Places are numbered as the sessions are, from 1 to 16.
    places: [Place; 17],
    ghost fits: { Fits (L.sight store) places },
}

// By hand, so that it is one call wherever a desk is let go.
impl<L: LineStore + Drop> Drop for Desk<L> {
    fn drop(self) {
        let Desk {
            store: _store,
            places: _,
        } = self;
    }
}

impl<L: LineStore + Drop> Desk<L> {
    ghost use Rattle.line_store.specs.Sights.{StandsAlone};
    ghost use Rattle.store_desk.specs.Places.{place_of};

    /// A desk before a store in which nobody has a transaction open.
    pub fn new(store: L) -> Self
        requires outside { (s : ℕ) → (L.sight store).stand s ≡ outside }
    {
        Desk {
            store,
            places: [Place::Outside; 17],
        }
    }

    /// The store.
    pub fn store(&self) -> &L
        ensures { result.now ≡ self.now.store }
    {
        &self.store
    }

    fn place(&self, s: Session) -> Place
        requires { IsMember s.number }
        ensures { result ≡ place_of self.now.places s.number }
    {
        self.places[s.number as usize]
    }

    // Whether no other session's commit is under way.
    fn is_alone(&self, s: Session) -> bool
        requires { IsMember s.number }
        ensures { result ≡ true → StandsAlone s.number (L.sight self.now.store) }
    {
        for t in 1..17 {
            if t == s.number {
                continue;
            }
            if self.places[t as usize].is_in_flight() {
                return false;
            }
        }
        true
    }

    pub fn begin(&mut self, s: Session) -> Answer
        requires { IsMember s.number }
    {
        if self.place(s) != Place::Outside {
            return Answer::NotNow;
        }
        self.store.begin(s);
        self.places[s.number as usize] = Place::Beginning;
        Answer::Done
    }

    pub fn begin_reading(&mut self, s: Session) -> Answer
        requires { IsMember s.number }
    {
        if self.place(s) != Place::Outside {
            return Answer::NotNow;
        }
        if self.store.begin_reading(s).is_err() {
            return Answer::NoMemory;
        }
        self.places[s.number as usize] = Place::Reading;
        Answer::Done
    }

    /// Begins a reader whose lines go into the backup of this number.
    pub fn begin_copy(&mut self, s: Session, number: u32) -> Answer
        requires { IsMember s.number }
    {
        if self.place(s) != Place::Outside || number < 1 || number > 9 {
            return Answer::NotNow;
        }
        if self.store.begin_copy(s, number).is_err() {
            return Answer::NoMemory;
        }
        self.places[s.number as usize] = Place::Copying(number);
        Answer::Done
    }

    pub fn end_reading(&mut self, s: Session) -> Answer
        requires { IsMember s.number }
    {
        if self.place(s) != Place::Reading {
            return Answer::NotNow;
        }
        self.store.end_reading(s);
        self.places[s.number as usize] = Place::Outside;
        Answer::Done
    }

    /// Learns a line as the session sees it.
    pub fn learn_line(&mut self, s: Session, key: Dbkey, known: &mut Known) -> Answer
        requires { IsMember s.number }
    {
        if !self.place(s).is_at_rest() {
            return Answer::NotNow;
        }
        read(self.store.learn_line(s, key, known))
    }

    /// Learns the lines of an area as the session sees them.
    pub fn learn_area(&mut self, s: Session, area: u32, known: &mut Known) -> Answer
        requires { IsMember s.number }
    {
        if !self.place(s).is_at_rest() {
            return Answer::NotNow;
        }
        read(self.store.learn_area(s, area, known))
    }

    pub fn room(&self, s: Session, area: u32, class: u16, from: Option<Dbkey>) -> Answer
        requires { IsMember s.number }
    {
        if self.place(s) != Place::Writing || storage_area(area).is_none() || !is_class(class) {
            return Answer::NotNow;
        }
        match self.store.room(s, area, class, from) {
            Ok(key) => Answer::Room(key),
            Err(full) => Answer::Full(full.limit),
        }
    }

    pub fn take_room(&mut self, s: Session, key: Dbkey, class: u16) -> Answer
        requires { IsMember s.number }
    {
        if storage_area(key.area).is_none() || !is_class(class) {
            return Answer::NotNow;
        }
        match self.store.take_room(s, key, class) {
            Ok(true) => Answer::Done,
            Ok(false) => Answer::Taken,
            Err(_) => Answer::NoMemory,
        }
    }

    pub fn change(&mut self, s: Session, writes: &[Write]) -> Answer
        requires { IsMember s.number }
    {
        if self.place(s) != Place::Writing {
            return Answer::NotNow;
        }
        match self.store.change(s, writes) {
            Ok(()) => {
                self.places[s.number as usize] = Place::Changing;
                Answer::Done
            }
            Err(ChangeStop::RujFull(limit)) | Err(ChangeStop::SnapFull(limit)) => {
                Answer::Full(limit)
            }
            Err(ChangeStop::Unfit(_)) => Answer::Unfit,
            Err(ChangeStop::NoMemory) => Answer::NoMemory,
        }
    }

    pub fn prepare(&mut self, s: Session) -> Answer
        requires { IsMember s.number }
    {
        if self.place(s) != Place::Writing {
            return Answer::NotNow;
        }
        match self.store.prepare(s) {
            Ok(()) => {
                self.places[s.number as usize] = Place::Prepared;
                Answer::Done
            }
            Err(CommitStop::AijFull(limit)) => Answer::Full(limit),
            Err(CommitStop::NoMemory) => Answer::NoMemory,
        }
    }

    pub fn give_back(&mut self, s: Session) -> Answer
        requires { IsMember s.number }
    {
        if self.place(s) != Place::Prepared {
            return Answer::NotNow;
        }
        self.store.give_back(s);
        self.places[s.number as usize] = Place::Writing;
        Answer::Done
    }

    pub fn commit(&mut self, s: Session) -> Answer
        requires { IsMember s.number }
    {
        if self.place(s) != Place::Prepared || !self.is_alone(s) {
            return Answer::NotNow;
        }
        self.store.commit(s);
        self.places[s.number as usize] = Place::Committing;
        Answer::Done
    }

    pub fn roll_back(&mut self, s: Session) -> Answer
        requires { IsMember s.number }
    {
        if self.place(s) != Place::Writing {
            return Answer::NotNow;
        }
        self.store.roll_back(s);
        self.places[s.number as usize] = Place::RollingBack;
        Answer::Done
    }

    pub fn die(&mut self, s: Session) -> Answer
        requires { IsMember s.number }
    {
        let place = self.place(s);
        if !place.is_alive() {
            return Answer::NotNow;
        }
        self.store.die(s);
        self.places[s.number as usize] = place.fallen();
        Answer::Done
    }

    /// One step of what is under way.
    pub fn step(&mut self, s: Session) -> Answer
        requires { IsMember s.number }
    {
        let place = self.place(s);
        if !place.is_under_way() {
            return Answer::NotNow;
        }
        match self.store.step(s) {
            Ok(Stepped::More) => Answer::More,
            Ok(Stepped::Done) => {
                self.places[s.number as usize] = place.done();
                Answer::Done
            }
            Ok(Stepped::Committed(_)) => {
                self.places[s.number as usize] = Place::Closing;
                Answer::Committed
            }
            Ok(Stepped::Recovered { is_committed, .. }) => {
                self.places[s.number as usize] = Place::Outside;
                Answer::Recovered(is_committed)
            }
            Err(_) => {
                self.places[s.number as usize] = place.failed();
                Answer::Fails
            }
        }
    }

    /// Steps a session until nothing is under way, or a step fails; a million times at most.
    pub fn finish(&mut self, s: Session) -> Answer
        requires { IsMember s.number }
    {
        let mut answer = Answer::More;
        for _ in 0..1_000_000 {
            answer = self.step(s);
            if answer != Answer::More && answer != Answer::Committed {
                return answer;
            }
        }
        answer
    }
}
