// What the sessions were answered, told again over tables in memory: the transactions in the order of their commits, and readers over
// what was committed at their start.
use crate::events::put_number;
use ordered_entries::Entries;
use rdb_account::{Event, render};
use rdb_meaning::Tables;
use rdb_tables::{Told, does};
use rdb_types::{Bytes, Copied, NoMemory, Session, Word};
use rdo_ast::reply::{Reply, Standing};
use std::alloc::Global;

/// So many sessions are numbered, from 0.
const NUMBERED: usize = 17;

/// Where a transaction began; of one that only reads also the tables of its start.
struct Start {
    from: usize,
    tables: Option<Tables>,
}

// By hand, and so those below, so that it is one call wherever one is let go.
impl Drop for Start {
    fn drop(self) {
        let Start {
            from: _,
            tables: _tables,
        } = self;
    }
}

/// What an item means there.
struct Answer {
    told: Told,
}

impl Drop for Answer {
    fn drop(self) {
        let Answer { told: _told } = self;
    }
}

/// The account as it is told again.
struct Telling<'a> {
    alloc: Global,
    word: Word,
    events: &'a [Event],
    committed: Tables,
    starts: Vec<Option<Start>>,
    /// The standing of the transaction that is told again.
    standing: Standing,
    /// So many replies were compared.
    count: u32,
}

impl Drop for Telling<'_> {
    fn drop(self) {
        let Telling {
            alloc: _,
            word: _word,
            events: _,
            committed: _committed,
            starts: _starts,
            standing: _standing,
            count: _,
        } = self;
    }
}

// Whether a reply stands in place of what an item means, for a lock, a limit or memory.
fn is_for_a_cause(reply: &Reply) -> bool {
    matches!(
        reply,
        Reply::LockConflict(_)
            | Reply::Deadlock(_)
            | Reply::AreaFull(_)
            | Reply::RujFull(_)
            | Reply::AijFull(_)
            | Reply::SnapFull(_)
            | Reply::NoMemory
    )
}

fn text_of(alloc: Global, reply: &Reply) -> Result<Bytes, NoMemory> {
    let mut text = Bytes::new(alloc);
    render(reply, &mut text)?;
    Ok(text)
}

fn put_other(s: Session, said: &[u8], meant: &[u8], out: &mut Bytes) -> Result<(), NoMemory> {
    if said == meant {
        return Ok(());
    }
    out.extend(b"  SAID TO ")?;
    put_number(s.number, out)?;
    out.extend(b"\n")?;
    out.extend(said)?;
    out.extend(b"  IN PLACE OF\n")?;
    out.extend(meant)
}

// Tells of a reply that isn't the one that an item means.
fn compare(
    alloc: Global,
    s: Session,
    said: &Reply,
    meant: &Reply,
    out: &mut Bytes,
) -> Result<(), NoMemory> {
    let said = text_of(alloc, said)?;
    let meant = text_of(alloc, meant)?;
    put_other(s, said.as_slice(), meant.as_slice(), out)
}

// The tables of an empty database.
fn no_tables(alloc: Global) -> Tables {
    Tables {
        globals: Entries::new(alloc),
        relations: Entries::new(alloc),
        indexes: Entries::new(alloc),
    }
}

fn no_starts(alloc: Global) -> Result<Vec<Option<Start>>, NoMemory> {
    let mut starts = Vec::new(alloc);
    for _ in 0..NUMBERED {
        starts.push(None)?;
    }
    Ok(starts)
}

impl<'a> Telling<'a> {
    fn new(alloc: Global, events: &'a [Event]) -> Result<Telling<'a>, NoMemory> {
        let starts = no_starts(alloc)?;
        let word = Word::from_slice(alloc, b"PERS")?;
        Ok(Telling {
            alloc,
            word,
            events,
            committed: no_tables(alloc),
            starts,
            standing: Standing::Closed,
            count: 0,
        })
    }

    // One event of a transaction told again over its tables.
    fn tell_event(
        &mut self,
        tables: &mut Tables,
        s: Session,
        event: &Event,
        out: &mut Bytes,
    ) -> Result<(), NoMemory> {
        let Event::Said(of, item, keys, reply) = event else {
            return Ok(());
        };
        if *of != s || is_for_a_cause(reply) {
            return Ok(());
        }
        let keys = keys.as_slice();
        let mut answer = Answer {
            told: does(tables, self.alloc, &self.word, &self.standing, item, keys)?,
        };
        compare(self.alloc, s, reply, &answer.told.reply, out)?;
        self.count = self.count.saturating_add(1);
        std::mem::swap(&mut answer.told.standing, &mut self.standing);
        Ok(())
    }

    // A transaction told again over these tables: the events between two places.
    fn tell(
        &mut self,
        tables: &mut Tables,
        s: Session,
        from: usize,
        to: usize,
        out: &mut Bytes,
    ) -> Result<(), NoMemory> {
        self.standing = Standing::Closed;
        let Some(events) = self.events.get(from..to) else {
            return Ok(());
        };
        for event in events {
            self.tell_event(tables, s, event, out)?;
        }
        Ok(())
    }

    fn put_start(&mut self, s: Session, from: usize, tables: Option<Tables>) {
        let start = Start { from, tables };
        if let Some(place) = self.starts.get_mut(s.number as usize) {
            *place = Some(start);
        }
    }

    fn begin(&mut self, s: Session, place: usize, kind: &Standing) -> Result<(), NoMemory> {
        let tables = match kind {
            Standing::ReadOnly => Some(self.committed.copied(self.alloc)?),
            _ => None,
        };
        self.put_start(s, place, tables);
        Ok(())
    }

    fn take_start(&mut self, s: Session) -> Option<Start> {
        match self.starts.get_mut(s.number as usize) {
            Some(start) => start.take(),
            None => None,
        }
    }

    // A transaction that may have written is told again over a copy of what is committed, which takes its place where it was kept.
    fn tell_writer(
        &mut self,
        s: Session,
        from: usize,
        to: usize,
        is_kept: bool,
        out: &mut Bytes,
    ) -> Result<(), NoMemory> {
        let mut tables = self.committed.copied(self.alloc)?;
        let told = self.tell(&mut tables, s, from, to, out);
        if is_kept {
            std::mem::swap(&mut tables, &mut self.committed);
        }
        told
    }

    // The transaction that ends at a place is told again.
    fn end(
        &mut self,
        s: Session,
        place: usize,
        is_kept: bool,
        out: &mut Bytes,
    ) -> Result<(), NoMemory> {
        let Some(mut start) = self.take_start(s) else {
            return Ok(());
        };
        let from = start.from;
        match &mut start.tables {
            None => self.tell_writer(s, from, place, is_kept, out),
            Some(tables) => self.tell(tables, s, from, place, out),
        }
    }

    fn follow(&mut self, place: usize, event: &Event, out: &mut Bytes) -> Result<(), NoMemory> {
        match event {
            Event::Began(s, kind) => self.begin(*s, place, kind),
            Event::Committed(s, _) => self.end(*s, place, true, out),
            Event::RolledBack(s) => self.end(*s, place, false, out),
            Event::Recovered(s, is_committed, _) => self.end(*s, place, *is_committed, out),
            _ => Ok(()),
        }
    }
}

/// Tells of each reply that isn't what its item means there, and answers how many were compared. It begins with no tables.
pub fn retell(alloc: Global, events: &[Event], out: &mut Bytes) -> Result<u32, NoMemory> {
    let mut telling = Telling::new(alloc, events)?;
    for (place, event) in events.iter().enumerate() {
        telling.follow(place, event, out)?;
    }
    Ok(telling.count)
}
