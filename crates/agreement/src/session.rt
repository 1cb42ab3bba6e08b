// The only session over the lines of a database.
use crate::lines::Lines;
use crate::rooms::Rooms;
use line_view::{Known, Need, Seen, View};
use rdb_types::{Copied, Image, NoMemory, Word};
use rdo_ast::reply::{Reply, Standing};
use rdo_ast::syntax::{Item, Statement};
use rdo_exec::RdoStatements;
use session_jobs::{Found, Job, Outcome, Statements, TxRecord};
use std::alloc::Global;

/// An item is begun so often at most.
const MAX_TRIES: u32 = 100_000;

/// What came of learning what an item lacked.
#[derive(Clone, Copy, Drop)]
pub enum Learnt {
    All,
    /// It lacked what is known.
    Known,
    /// An area has no more rooms.
    Full,
    /// It lacked something too often.
    Endless,
}

/// An item that was said, and what it came to.
pub struct Said {
    job: Job,
    pub found: Found,
    pub learnt: Learnt,
    /// How often it was begun again behind what it lacked.
    pub tries: u32,
}

// By hand, so that it is one call wherever one is let go.
impl Drop for Said {
    fn drop(self) {
        let Said {
            job: _job,
            found: _found,
            learnt: _,
            tries: _,
        } = self;
    }
}

impl Said {
    pub fn item(&self) -> &Item {
        &self.job.item
    }

    // Nothing is kept from try to try.
    fn of(job: Job, tries: u32) -> Said {
        let kept = RdoStatements::nothing();
        let (job, _kept, found) = Outcome::<RdoStatements>::of(job, kept).into_parts();
        Said {
            job,
            found,
            learnt: Learnt::All,
            tries,
        }
    }

    // Works it again, over what was learnt.
    fn again(self) -> Said {
        let Said {
            job,
            found: _found,
            learnt: _,
            tries,
        } = self;
        Said::of(job, tries.wrapping_add(1))
    }
}

fn is_known(known: &Known, need: Need) -> bool {
    match need {
        Need::Line(key) => !matches!(known.line(key), Seen::Unknown),
        Need::Area(area) => known.area(area).is_some(),
        Need::Room(room) => known.room(room).is_some(),
    }
}

/// The only session over the lines of a database, with what it knows of them. What it knows is kept from item to item, and forgotten where a transaction is rolled back.
pub struct Session {
    all: Lines,
    // The lines when the transaction began.
    old: Lines,
    word: Word,
    standing: Standing,
    known: Known,
    rooms: Rooms,
}

impl Drop for Session {
    fn drop(self) {
        let Session {
            all: _all,
            old: _old,
            word: _word,
            standing: _standing,
            known: _known,
            rooms: _rooms,
        } = self;
    }
}

impl Session {
    /// Over a new database of this word.
    pub fn new(alloc: Global, word: Word) -> Session {
        Session {
            all: Lines::new(alloc),
            old: Lines::new(alloc),
            word,
            standing: Standing::Closed,
            known: Known::new(alloc),
            rooms: Rooms::new(alloc),
        }
    }

    /// Forgets all that is known.
    pub fn forget(&mut self, alloc: Global) {
        self.known = Known::new(alloc);
    }

    /// The lines of the database.
    pub fn lines(&mut self) -> &mut Lines {
        &mut self.all
    }

    /// The database's word.
    pub fn word(&self) -> &Word {
        &self.word
    }

    // Learns a need, or gives a room, which is known once the rooms are learnt. False where an area has no more rooms.
    fn learn(&mut self, alloc: Global, need: Need, known: &mut Known) -> Result<bool, NoMemory> {
        match need {
            Need::Line(key) => known.learn_line(alloc, key, self.all.line(key))?,
            Need::Area(area) => {
                let lines = self.all.lines_of(alloc, area)?;
                known.learn_area(alloc, area, &lines)?;
            }
            Need::Room(room) => return self.rooms.give(&self.all, room),
        }
        Ok(true)
    }

    // Learns those that aren't known, and the rooms that were given. False where an area has no more rooms.
    fn learn_all(
        &mut self,
        alloc: Global,
        needs: &[Need],
        known: &mut Known,
    ) -> Result<bool, NoMemory> {
        for need in needs {
            if !is_known(known, *need) && !self.learn(alloc, *need, known)? {
                return Ok(false);
            }
        }
        self.rooms.learn(known)
    }

    // Learns what an item lacks. False where it lacks nothing, or what is known, or what can't be learnt.
    fn learn_for(&mut self, alloc: Global, said: &mut Said) -> Result<bool, NoMemory> {
        let Found::Missing { next, later } = &said.found else {
            return Ok(false);
        };
        if is_known(&said.job.known, *next) {
            said.learnt = Learnt::Known;
            return Ok(false);
        }
        let known = &mut said.job.known;
        if self.learn(alloc, *next, known)? && self.learn_all(alloc, later.as_slice(), known)? {
            return Ok(true);
        }
        said.learnt = Learnt::Full;
        Ok(false)
    }

    // Begins an item over what is known, without rooms.
    fn begin(&mut self, alloc: Global, item: Item) -> Said {
        let mut job = Job {
            alloc,
            word: Word::new(alloc),
            standing: Standing::Closed,
            item,
            known: Known::new(alloc),
        };
        self.exchange(&mut job);
        job.known.forget_rooms();
        self.rooms.clear();
        Said::of(job, 0)
    }

    // Gives a job what is the session's, or takes it back.
    fn exchange(&mut self, job: &mut Job) {
        std::mem::swap(&mut job.word, &mut self.word);
        std::mem::swap(&mut job.standing, &mut self.standing);
        std::mem::swap(&mut job.known, &mut self.known);
    }

    // Works an item until it lacks nothing, or what can't be learnt.
    fn work(&mut self, alloc: Global, begun: Said) -> Result<Said, NoMemory> {
        let mut said = begun;
        for _ in 0..MAX_TRIES {
            if !self.learn_for(alloc, &mut said)? {
                return Ok(said);
            }
            said = said.again();
        }
        said.learnt = Learnt::Endless;
        Ok(said)
    }

    // Lays the writes of a record over the lines, and over what is known.
    fn lay(&mut self, alloc: Global, record: &TxRecord) -> Result<(), NoMemory> {
        for write in record.writes.as_slice() {
            let image = write.image.as_ref();
            let image = image.map(|image| Image::from_bytes(image.bytes()));
            let again = write.image.as_ref();
            let again = again.map(|image| Image::from_bytes(image.bytes()));
            self.all.lay(alloc, write.key, image)?;
            self.known.put(alloc, write.key, again)?;
        }
        Ok(())
    }

    // What a transaction that begins or ends keeps or takes back.
    fn turn(&mut self, alloc: Global, item: &Item, was_writer: bool) -> Result<(), NoMemory> {
        match item {
            Item::Statement(Statement::StartReadWrite { .. }) => {
                self.old = self.all.copied(alloc)?;
            }
            Item::Statement(Statement::Rollback) if was_writer => {
                self.all = self.old.copied(alloc)?;
                self.forget(alloc);
            }
            _ => {}
        }
        Ok(())
    }

    fn follow(&mut self, alloc: Global, item: &Item, record: &TxRecord) -> Result<(), NoMemory> {
        let was_writer = matches!(&self.standing, Standing::ReadWrite { .. });
        self.lay(alloc, record)?;
        self.standing = record.standing.copied(alloc)?;
        if let Reply::Done(_) = &record.reply {
            self.turn(alloc, item, was_writer)?;
        }
        Ok(())
    }

    /// Says an item: it is worked until it lacks nothing, and what it wrote stands on the lines.
    pub fn say(&mut self, alloc: Global, item: Item) -> Result<Said, NoMemory> {
        let begun = self.begin(alloc, item);
        let mut said = self.work(alloc, begun)?;
        self.exchange(&mut said.job);
        if let Found::Done(record) = &said.found {
            self.follow(alloc, &said.job.item, record)?;
        }
        Ok(said)
    }
}
