// A database as lines and as tables.
use crate::counts::Counts;
use crate::over_tables::OverTables;
use crate::session::{Learnt, Said, Session};
use rdb_account::render;
use rdb_types::{Bytes, NoMemory, Word};
use rdo_ast::syntax::Item;
use rdo_parser::Script;
use session_jobs::{Found, TxRecord};
use std::alloc::Global;

/// A line has so many items at most.
const MAX_ITEMS: u32 = 1000;

/// A line has so many bytes at most.
const MAX_LINE: usize = 65535;

fn put_lacking(learnt: Learnt, out: &mut Bytes) -> Result<(), NoMemory> {
    match learnt {
        Learnt::All => out.extend(b"IT LACKS NOTHING\n"),
        Learnt::Known => out.extend(b"A NEED IS KNOWN\n"),
        Learnt::Full => out.extend(b"NO ROOM\n"),
        Learnt::Endless => out.extend(b"IT NEVER ENDS\n"),
    }
}

/// A database as lines and as tables.
pub struct World {
    session: Session,
    tables: OverTables,
    counts: Counts,
}

impl Drop for World {
    fn drop(self) {
        let World {
            session: _session,
            tables: _tables,
            counts: _,
        } = self;
    }
}

impl World {
    pub fn new(alloc: Global) -> Result<World, NoMemory> {
        let word = Word::from_slice(alloc, b"PERS")?;
        Ok(World {
            session: Session::new(alloc, word),
            tables: OverTables::new(alloc),
            counts: Counts::none(),
        })
    }

    /// Begins with a new database.
    pub fn begin(&mut self, alloc: Global) -> Result<(), NoMemory> {
        let word = Word::from_slice(alloc, b"PERS")?;
        self.session = Session::new(alloc, word);
        self.tables = OverTables::new(alloc);
        Ok(())
    }

    pub fn forget(&mut self, alloc: Global) {
        self.session.forget(alloc);
    }

    pub fn counts(&self) -> &Counts {
        &self.counts
    }

    // Does over tables what was done over lines.
    fn follow(
        &mut self,
        alloc: Global,
        item: &Item,
        record: &TxRecord,
        out: &mut Bytes,
    ) -> Result<(), NoMemory> {
        self.counts.count(record);
        self.tables
            .follow(alloc, self.session.word(), item, record, out)?;
        if record.writes.is_empty() {
            return Ok(());
        }
        self.tables.compare(alloc, self.session.lines(), out)
    }

    // Says over tables what was said over lines. What it comes to is added to what is told.
    fn say_too(
        &mut self,
        alloc: Global,
        said: &Said,
        told: &mut Bytes,
        out: &mut Bytes,
    ) -> Result<(), NoMemory> {
        match &said.found {
            Found::Done(record) => {
                self.follow(alloc, said.item(), record, out)?;
                render(&record.reply, told)
            }
            Found::Unworked => {
                self.counts.unworked = self.counts.unworked.wrapping_add(1);
                told.extend(b"not worked\n")
            }
            Found::Bad(_) => out.extend(b"A BAD LINE\n"),
            Found::Missing { .. } => put_lacking(said.learnt, out),
            Found::NoMemory => Err(NoMemory {}),
        }
    }

    // Counts a statement, and whether something was told of it.
    fn count(&mut self, said: &Said, is_other: bool) {
        self.counts.statements = self.counts.statements.wrapping_add(1);
        self.counts.needs = self.counts.needs.wrapping_add(said.tries);
        if is_other {
            self.counts.differ = self.counts.differ.wrapping_add(1);
        }
    }

    fn say_item(
        &mut self,
        alloc: Global,
        item: Item,
        told: &mut Bytes,
        out: &mut Bytes,
    ) -> Result<(), NoMemory> {
        let before = out.as_slice().len();
        let said = self.session.say(alloc, item)?;
        self.say_too(alloc, &said, told, out)?;
        self.count(&said, before < out.as_slice().len());
        Ok(())
    }

    /// Says the statements of a line. What they come to is added to what is told, and where they come to other things over lines than over tables, that to what differs.
    pub fn say(
        &mut self,
        alloc: Global,
        line: &[u8],
        told: &mut Bytes,
        out: &mut Bytes,
    ) -> Result<(), NoMemory> {
        if line.len() > MAX_LINE {
            return out.extend(b"A LINE IS TOO LONG\n");
        }
        let mut script = Script::new(line);
        for _ in 0..MAX_ITEMS {
            let Some(item) = script.next_item(alloc)? else {
                return Ok(());
            };
            self.say_item(alloc, item, told, out)?;
        }
        out.extend(b"A LINE HAS TOO MANY ITEMS\n")
    }
}
