// The same database as tables.
use crate::compared::same_tables;
use crate::lines::Lines;
use line_view::{Need, Stop};
use ordered_entries::Entries;
use rdb_account::render;
use rdb_meaning::Tables;
use rdb_tables::{Told, does};
use rdb_types::{Bytes, Copied, NoMemory, Word};
use rdo_ast::reply::{Reply, Standing};
use rdo_ast::syntax::{Item, Statement};
use session_jobs::TxRecord;
use sound_lines::read_tables;
use std::alloc::Global;

/// A database has so many areas at most.
const MAX_AREAS: u32 = 100_000;

fn no_tables(alloc: Global) -> Tables {
    Tables {
        globals: Entries::new(alloc),
        relations: Entries::new(alloc),
        indexes: Entries::new(alloc),
    }
}

fn text_of(alloc: Global, reply: &Reply) -> Result<Bytes, NoMemory> {
    let mut text = Bytes::new(alloc);
    render(reply, &mut text)?;
    Ok(text)
}

fn put_difference(lines: &[u8], tables: &[u8], out: &mut Bytes) -> Result<(), NoMemory> {
    if lines == tables {
        return Ok(());
    }
    out.extend(b"OVER LINES\n")?;
    out.extend(lines)?;
    out.extend(b"OVER TABLES\n")?;
    out.extend(tables)
}

fn compare_replies(
    alloc: Global,
    lines: &Reply,
    tables: &Reply,
    out: &mut Bytes,
) -> Result<(), NoMemory> {
    let here = text_of(alloc, lines)?;
    let there = text_of(alloc, tables)?;
    put_difference(here.as_slice(), there.as_slice(), out)
}

fn same_standing(a: &Standing, b: &Standing) -> bool {
    match (a, b) {
        (Standing::Closed, Standing::Closed) | (Standing::ReadOnly, Standing::ReadOnly) => true,
        (
            Standing::ReadWrite { wait, reserved },
            Standing::ReadWrite {
                wait: waits,
                reserved: also,
            },
        ) => wait == waits && reserved.len() == also.len(),
        _ => false,
    }
}

/// What an item came to over tables.
struct Answer {
    told: Told,
}

// By hand, so that it is one call wherever it is let go.
impl Drop for Answer {
    fn drop(self) {
        let Answer { told: _told } = self;
    }
}

impl Answer {
    // Tells of what is other than it was over lines.
    fn compare(&self, alloc: Global, record: &TxRecord, out: &mut Bytes) -> Result<(), NoMemory> {
        compare_replies(alloc, &record.reply, &self.told.reply, out)?;
        if record.choices.as_slice() != self.told.taken.as_slice() {
            out.extend(b"OTHER DBKEYS\n")?;
        }
        if !same_standing(&record.standing, &self.told.standing) {
            out.extend(b"OTHER STANDINGS\n")?;
        }
        Ok(())
    }
}

/// The tables of a database, and as they were when its transaction began.
pub struct OverTables {
    tables: Tables,
    old: Tables,
    standing: Standing,
}

impl Drop for OverTables {
    fn drop(self) {
        let OverTables {
            tables: _tables,
            old: _old,
            standing: _standing,
        } = self;
    }
}

impl OverTables {
    /// A new database.
    pub fn new(alloc: Global) -> OverTables {
        OverTables {
            tables: no_tables(alloc),
            old: no_tables(alloc),
            standing: Standing::Closed,
        }
    }

    // Does what was done over lines, with the Dbkeys that were chosen there, and compares what is told.
    fn does_too(
        &mut self,
        alloc: Global,
        word: &Word,
        item: &Item,
        record: &TxRecord,
        out: &mut Bytes,
    ) -> Result<(), NoMemory> {
        let choices = record.choices.as_slice();
        let mut answer = Answer {
            told: does(&mut self.tables, alloc, word, &self.standing, item, choices)?,
        };
        answer.compare(alloc, record, out)?;
        std::mem::swap(&mut answer.told.standing, &mut self.standing);
        Ok(())
    }

    // What a transaction that begins or ends keeps or takes back.
    fn turn(&mut self, alloc: Global, item: &Item, was_writer: bool) -> Result<(), NoMemory> {
        match item {
            Item::Statement(Statement::StartReadWrite { .. }) => {
                self.old = self.tables.copied(alloc)?;
            }
            Item::Statement(Statement::Rollback) if was_writer => {
                self.tables = self.old.copied(alloc)?;
            }
            _ => {}
        }
        Ok(())
    }

    // What is to be told where the lines have other tables.
    fn difference(&self, alloc: Global, lines: &mut Lines) -> Result<&'static [u8], NoMemory> {
        for _ in 0..MAX_AREAS {
            match read_tables(alloc, lines.view()) {
                Ok(tables) if same_tables(&tables, &self.tables) => return Ok(b""),
                Ok(_) => return Ok(b"OTHER TABLES\n"),
                Err(Stop::Missing(Need::Area(area))) => lines.begin_area(alloc, area)?,
                Err(Stop::NoMemory) => return Err(NoMemory {}),
                Err(_) => return Ok(b"THE LINES HAVE NO TABLES\n"),
            }
        }
        Ok(b"THE LINES HAVE NO END\n")
    }

    /// Does over tables what was done over lines, and tells of what is other.
    pub fn follow(
        &mut self,
        alloc: Global,
        word: &Word,
        item: &Item,
        record: &TxRecord,
        out: &mut Bytes,
    ) -> Result<(), NoMemory> {
        let was_writer = matches!(&self.standing, Standing::ReadWrite { .. });
        self.does_too(alloc, word, item, record, out)?;
        if let Reply::Done(_) = &record.reply {
            self.turn(alloc, item, was_writer)?;
        }
        Ok(())
    }

    /// Tells of it where the lines have other tables.
    pub fn compare(
        &self,
        alloc: Global,
        lines: &mut Lines,
        out: &mut Bytes,
    ) -> Result<(), NoMemory> {
        out.extend(self.difference(alloc, lines)?)
    }
}
