// A group slot by slot, without its lines.
ghost use Rattle.std.specs.Prelude.{◌≡◌, length};
ghost use Rattle.journal_reading.specs.journal_scan.Standing.{what_stands};
ghost use Rattle.journal_passing.specs.Passing.{no_lines, is_next as is_next_in, is_its as is_its_in, closed, grown, continued, begun_by as begun_as, passed_by};

use journal_reading::{AijPart, read_slot};
use rdb_types::{Dbkey, Tsn};

/// A whole group without its lines: whose it is, and how many lines it has.
#[derive(Clone, Copy)]
pub struct PassedGroup {
    pub tsn: Tsn,
    pub lines: u32,
}

/// A group of which not every slot was passed: what its first slot says of it, how many lines were passed, and the key of the last one.
#[derive(Clone, Copy)]
pub struct Passing {
    pub tsn: Tsn,
    pub count: u32,
    pub lines: u32,
    pub last: Option<Dbkey>,
}

/// What a slot makes of a group on its way.
#[derive(Clone, Copy)]
pub enum Passed {
    More(Passing),
    Whole(PassedGroup),
    Broken,
}

/// Passes a slot, which the group of this number is to go on with, or to begin with where none was passed.
pub fn pass_slot(before: Option<Passing>, number: u64, slot: &[u8]) -> Passed
    requires { length slot.now ≡ 512 }
    ensures { result ≡ passed_by before number (what_stands slot.now) }
{
    let Some(part) = read_slot(slot) else {
        return Passed::Broken;
    };
    let passing = begun_by(before, &part);
    passing.goes_on(number, &part)
}

// The group that the slot is to go on with.
fn begun_by(before: Option<Passing>, part: &AijPart) -> Passing
    ensures { result ≡ begun_as before part.now }
{
    match before {
        None => Passing::new(part),
        Some(passing) => passing,
    }
}

impl Passing {
    fn new(part: &AijPart) -> Passing
        ensures { result ≡ no_lines part.now }
    {
        Passing {
            tsn: part.tsn,
            count: part.count,
            lines: 0,
            last: None,
        }
    }

    fn is_next(&self, part: &AijPart) -> bool
        ensures { result ≡ is_next_in self.now part.now }
    {
        part.tsn.number == self.tsn.number && part.count == self.count && part.index == self.lines
    }

    // Whether the slot is the next one of the group of this number.
    fn is_its(&self, number: u64, part: &AijPart) -> bool
        ensures { result ≡ is_its_in self.now number part.now }
    {
        part.number == number && self.is_next(part)
    }

    fn goes_on(&self, number: u64, part: &AijPart) -> Passed
        ensures { result ≡ continued self.now number part.now }
    {
        if !self.is_its(number, part) {
            return Passed::Broken;
        }
        match &part.line {
            None => self.close(),
            Some(line) => self.grow(line.key),
        }
    }

    // The group's commit.
    fn close(&self) -> Passed
        ensures { result ≡ closed self.now }
    {
        if u64::from(self.lines) + 1 != u64::from(self.count) {
            return Passed::Broken;
        }
        Passed::Whole(PassedGroup {
            tsn: self.tsn,
            lines: self.lines,
        })
    }

    // A line of the group.
    fn grow(&self, key: Dbkey) -> Passed
        ensures { result ≡ grown self.now key }
    {
        let is_behind = match self.last {
            None => true,
            Some(last) => last < key,
        };
        if u64::from(self.lines) + 1 >= u64::from(self.count) || !is_behind {
            return Passed::Broken;
        }
        Passed::More(Passing {
            tsn: self.tsn,
            count: self.count,
            lines: self.lines + 1,
            last: Some(key),
        })
    }
}
