// How many statements came to what.
use itoa::Buffer;
use rdb_types::{Bytes, NoMemory};
use rdo_ast::reply::Reply;
use session_jobs::TxRecord;

#[derive(Clone, Copy, Drop)]
pub struct Counts {
    pub statements: u32,
    pub done: u32,
    pub refused: u32,
    pub unworked: u32,
    pub differ: u32,
    pub needs: u32,
    pub writes: u32,
}

fn put(out: &mut Bytes, number: u32, word: &str) -> Result<(), NoMemory> {
    let mut buffer = Buffer::new();
    out.extend(buffer.format(number).as_bytes())?;
    out.extend(word.as_bytes())
}

impl Counts {
    pub fn none() -> Counts {
        Counts {
            statements: 0,
            done: 0,
            refused: 0,
            unworked: 0,
            differ: 0,
            needs: 0,
            writes: 0,
        }
    }

    pub fn count(&mut self, record: &TxRecord) {
        match &record.reply {
            Reply::Done(_) => self.done = self.done.wrapping_add(1),
            _ => self.refused = self.refused.wrapping_add(1),
        }
        let writes = u32::try_from(record.writes.len()).unwrap_or(u32::MAX);
        self.writes = self.writes.wrapping_add(writes);
    }

    /// Adds the line of them all.
    pub fn put(&self, out: &mut Bytes) -> Result<(), NoMemory> {
        put(out, self.statements, " statements, ")?;
        put(out, self.done, " done, ")?;
        put(out, self.refused, " refused, ")?;
        put(out, self.unworked, " not worked, ")?;
        put(out, self.differ, " differ, ")?;
        put(out, self.needs, " needs, ")?;
        put(out, self.writes, " writes\n")
    }
}
