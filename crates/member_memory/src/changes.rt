// A statement's writes laid over the lines, in two passes: what wants memory stands in the first.
ghost use Rattle.std.specs.Prelude.{◌≡◌, ◌<◌, ◌≤◌, ◌+◌, ◌++◌, ◌∷◌, ◌⊎◌, [], ℕ, List, Some, None, is_some, length, OnOk, OnErr, IsErrOf};
ghost use Rattle.std.specs.FinMap.Entries.{find, put};
ghost use Rattle.rdb_types.specs.declared.keys.Tsn.{Tsn as Number};
ghost use Rattle.rdb_types.specs.Order.{dbkey_order};
ghost use Rattle.line_view.specs.declared.writes.Write.{Write as Written};
ghost use Rattle.line_store.specs.Seats.{lines_added};
ghost use Rattle.member_memory.specs.Memory.{Memory, writes_in};
ghost use Rattle.member_memory.specs.Changes.{Adding, AreAdded, Grows, HasGrown, Lays, blank, rewritten, rewritten_all, with_key};

use crate::MemberLines;
use line_view::Write;
use ordered_entries::Entries;
use rdb_types::{Dbkey, Image, Line, LineState, NoMemory, Tsn};

/// Why writes can't be laid over the lines.
#[derive(Clone, Copy, Debug, PartialEq, Eq)]
pub enum AddStop {
    /// There would be more lines than the limit.
    Full,
    NoMemory,
}

impl From<NoMemory> for AddStop {
    ghost use Rattle.member_memory.specs.declared.changes.AddStop.TheVariants as stops;

    ghost from_gives = { λ _ e. e ≡ stops.NoMemory };

    fn from(_: NoMemory) -> Self {
        AddStop::NoMemory
    }
}

// A line without an image, which waits for its own.
fn blank_line(tsn: Tsn) -> Line
    ensures { result ≡ blank tsn }
{
    Line {
        state: LineState::Erased,
        tsn,
        chain: 0,
        image: Image::from_bytes(&[]),
    }
}

// The line with the image of a write.
fn rewritten_line(line: &Line, image: &Option<Image>) -> Line
    ensures { result ≡ rewritten image.now line.now }
{
    match image {
        Some(image) => Line {
            state: LineState::Present,
            tsn: line.tsn,
            chain: line.chain,
            image: Image::from_bytes(image.bytes()),
        },
        None => Line {
            state: LineState::Erased,
            tsn: line.tsn,
            chain: line.chain,
            image: Image::from_bytes(&[]),
        },
    }
}

// Puts a key behind the others, with a blank line.
fn add_key(
    lines: &mut Entries<Dbkey, Line>,
    keys: &mut Vec<Dbkey>,
    tsn: Tsn,
    key: Dbkey,
) -> Result<(), NoMemory>
    ensures lines { OnOk result (lines.new ≡ put dbkey_order key (blank tsn) lines.old) }
    ensures keys { OnOk result (keys.new.items ≡ keys.old.items ++ key ∷ []) }
    ensures lines_stay { OnErr result (lines.new ≡ lines.old) }
    ensures keys_stay { OnErr result (keys.new.items ≡ keys.old.items) }
{
    keys.push(key)?;
    match lines.put(key, blank_line(tsn)) {
        Ok(()) => Ok(()),
        Err(stop) => {
            let _key = keys.pop();
            Err(stop)
        }
    }
}

// Takes back the keys behind so many, last first, with their lines. It wants no memory.
fn take_back(lines: &mut Entries<Dbkey, Line>, keys: &mut Vec<Dbkey>, count: usize)
    ensures { (tsn : Number) (writes : List Written) (old : Memory)
        → Grows tsn writes old (record { lines = lines.old; keys = keys.old.items }) → count ≡ length old.keys
        → (lines.new ≡ old.lines) × (keys.new.items ≡ old.keys) }
{
    while keys.len() > count {
        if let Some(key) = keys.pop() {
            let _line = lines.remove(&key);
        }
    }
}

// Puts the key of each write that has no line yet behind the others, up to a limit.
fn add_keys(
    lines: &mut Entries<Dbkey, Line>,
    keys: &mut Vec<Dbkey>,
    tsn: Tsn,
    limit: u32,
    writes: &[Write],
) -> Result<(), AddStop>
    ensures grows { Grows tsn writes.now (record { lines = lines.old; keys = keys.old.items })
        (record { lines = lines.new; keys = keys.new.items }) }
    ensures added { OnOk result (AreAdded writes.now (record { lines = lines.old; keys = keys.old.items })
        (record { lines = lines.new; keys = keys.new.items })) }
    ensures full { IsErrOf result AddStop.Full
        → limit < length keys.old.items + lines_added (writes_in lines.old) writes.now }
    ensures fits { OnOk result ((length keys.new.items ≤ limit) ⊎ (length keys.new.items ≡ length keys.old.items)) }
{
    for write in writes {
        if lines.find(&write.key).is_none() {
            if keys.len() >= limit as usize {
                return Err(AddStop::Full);
            }
            add_key(lines, keys, tsn, write.key)?;
        }
    }
    Ok(())
}

// Gives each line that is written the image of its last write. It wants no memory.
fn rewrite_all(lines: &mut Entries<Dbkey, Line>, writes: &[Write])
    ensures { lines.new ≡ rewritten_all writes.now lines.old }
{
    for write in writes {
        if let Some(line) = lines.find(&write.key) {
            let next = rewritten_line(line, &write.image);
            let _before = lines.exchange(&write.key, next);
        }
    }
}

impl MemberLines {
    /// Gives each write's line that is new a place behind the others and a blank line, where so many lines are no more than the limit. It is the first half of a change, and alone wants memory: behind it `lay` lays the writes, or `take_back` undoes it. Where it answers that there is no room, or memory fails, the lines are as they were.
    pub fn add(&mut self, tsn: Tsn, limit: u32, writes: &[Write]) -> Result<(), AddStop>
        ensures added { OnOk result (Adding tsn writes.now self.old self.new) }
        ensures fits { OnOk result (length self.old.keys ≤ limit → length self.new.keys ≤ limit) }
        ensures full { IsErrOf result AddStop.Full
            → limit < length self.old.keys + lines_added (writes_in self.old.lines) writes.now }
        ensures stays { OnErr result (self.new ≡ self.old) }
    {
        let count = self.keys.len();
        if let Err(stop) = add_keys(&mut self.lines, &mut self.keys, tsn, limit, writes) {
            take_back(&mut self.lines, &mut self.keys, count);
            return Err(stop);
        }
        Ok(())
    }

    /// Undoes `add`: so many keys are left. It wants no memory.
    pub fn take_back(&mut self, count: usize)
        requires { HasGrown count self.old }
        ensures { (tsn : Number) (writes : List Written) (old : Memory) → Grows tsn writes old self.old
            → count ≡ length old.keys → self.new ≡ old }
    {
        take_back(&mut self.lines, &mut self.keys, count);
    }

    /// Gives each line that is written the image of its last write, behind `add`. It wants no memory.
    pub fn lay(&mut self, writes: &[Write])
        ensures lines { self.new.lines ≡ rewritten_all writes.now self.old.lines }
        ensures keys { self.new.keys ≡ self.old.keys }
    {
        rewrite_all(&mut self.lines, writes);
    }

    /// Lays a statement's writes over the lines, where so many are no more than the limit: that of the entries of the member's journal. Where it answers that they are, or memory fails, the lines are as they were.
    pub fn change(&mut self, tsn: Tsn, limit: u32, writes: &[Write]) -> Result<(), AddStop>
        ensures lays { OnOk result (Lays tsn writes.now self.old self.new) }
        ensures fits { OnOk result (length self.old.keys ≤ limit → length self.new.keys ≤ limit) }
        ensures full { IsErrOf result AddStop.Full
            → limit < length self.old.keys + lines_added (writes_in self.old.lines) writes.now }
        ensures stays { OnErr result (self.new ≡ self.old) }
    {
        self.add(tsn, limit, writes)?;
        self.lay(writes);
        Ok(())
    }
}
