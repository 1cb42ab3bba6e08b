// The committed lines.
ghost use Rattle.std.specs.Prelude.{◌≡◌, ◌≤◌, ◌<◌, ◌+◌, ◌-◌, [], vec_len, vec_capacity, IfOk, OnOk, OnErr};
ghost use Rattle.line_view.specs.Knowledge.{Lines, line_in};
ghost use Rattle.line_view.specs.Writes.{laid_all};
ghost use Rattle.member_memory.specs.Memory.{writes_in};
ghost use Rattle.memory_store.specs.Landed.{landed_on};

use crate::lines::{LineMap, image_in, last_image, lay};
use member_memory::MemberLines;
use ordered_entries::Entries;
use rdb_types::{Copied, Dbkey, Image, NoMemory};
use std::alloc::Global;
use std::marker::Model;

/// How many commits may land between two times that their writes are put into the map: one for each seat.
const LANDED: usize = 17;

/// What a commit wrote.
#[derive(Drop)]
pub(crate) struct Batch {
    lines: MemberLines,
}

impl Model for Batch {
    ghost use Rattle.std.specs.Prelude.{List};
    ghost use Rattle.line_view.specs.declared.writes.Write.{Write as Written};
    ghost use Rattle.member_memory.specs.Memory.{writes_in};

    ghost Value = { List Written };

    ghost view = { λ b. writes_in b.lines.lines };
}

/// The committed lines: a map, and the writes of commits that aren't in it yet, in their order. So a commit takes no memory.
#[derive(Drop)]
pub(crate) struct Committed {
    map: LineMap,
    landed: Vec<Batch>,
}

impl Model for Committed {
    ghost use Rattle.std.specs.Prelude.{◌-◌, ◌≤◌, vec_len, vec_capacity};
    ghost use Rattle.memory_store.specs.Landed.{Stock, landed_on};

    ghost Value = { Stock };

    ghost view = { λ c. record { lines = landed_on c.landed.items c.map; room = vec_capacity c.landed - vec_len c.landed } };

    ghost invariant = { λ c. 17 ≤ vec_capacity c.landed };
}

fn lay_landed(lines: &mut LineMap, landed: &[Batch]) -> Result<(), NoMemory>
    ensures { OnOk result (lines.new ≡ landed_on landed.now lines.old) }
{
    for batch in landed {
        lay(lines, batch.lines.lines())?;
    }
    Ok(())
}

// Puts the writes of the first commit into the map. Where memory fails some of them stand there, and all of them behind it still.
fn lay_first(map: &mut LineMap, landed: &mut Vec<Batch>) -> Result<(), NoMemory>
    ensures lines { landed_on landed.new.items map.new ≡ landed_on landed.old.items map.old }
    ensures one { OnOk result (vec_len landed.new ≡ vec_len landed.old - 1) }
    ensures none { OnErr result (vec_len landed.new ≡ vec_len landed.old) }
    ensures capacity { vec_capacity landed.new ≡ vec_capacity landed.old }
{
    let Some(first) = landed.first() else {
        return Ok(());
    };
    // (so they are in the order of their keys)
    let _lines = map.as_slice();
    lay(map, first.lines.lines())?;
    let _laid = landed.remove(0);
    Ok(())
}

// Puts the writes of all commits into the map.
fn lay_all(map: &mut LineMap, landed: &mut Vec<Batch>) -> Result<(), NoMemory>
    ensures lines { landed_on landed.new.items map.new ≡ landed_on landed.old.items map.old }
    ensures all { OnOk result (vec_len landed.new ≡ 0) }
    ensures few { vec_len landed.new ≤ vec_len landed.old }
    ensures capacity { vec_capacity landed.new ≡ vec_capacity landed.old }
{
    for _batch in 0..landed.len() {
        lay_first(map, landed)?;
    }
    Ok(())
}

// The image of a line behind commits.
fn last_landed(before: Option<Image>, landed: &[Batch], key: Dbkey) -> Option<Image>
    ensures { (all : Lines) → before ≡ line_in key all → result ≡ line_in key (landed_on landed.now all) }
{
    let mut image = before;
    for batch in landed {
        image = last_image(image, &batch.lines, key);
    }
    image
}

impl Committed {
    pub(crate) fn new(alloc: Global) -> Result<Committed, NoMemory>
        ensures lines { IfOk result (λ c. c.lines ≡ []) }
        ensures room { IfOk result (λ c. 17 ≤ c.room) }
    {
        let landed = Vec::with_capacity(alloc, LANDED)?;
        Ok(Committed {
            map: Entries::new(alloc),
            landed,
        })
    }

    /// The image of a line.
    pub(crate) fn line(&self, key: Dbkey) -> Option<Image>
        ensures { result ≡ line_in key self.now.lines }
    {
        last_landed(image_in(&self.map, key), &self.landed, key)
    }

    /// A copy of all lines.
    pub(crate) fn copied(&self, alloc: Global) -> Result<LineMap, NoMemory>
        ensures { IfOk result (λ lines. lines ≡ self.now.lines) }
    {
        let mut lines = self.map.copied(alloc)?;
        lay_landed(&mut lines, &self.landed)?;
        Ok(lines)
    }

    /// Puts the writes of all commits into the map, so that there is room for as many more. Where memory fails there is room for no fewer than before.
    pub(crate) fn settle(&mut self) -> Result<(), NoMemory>
        ensures lines { self.new.lines ≡ self.old.lines }
        ensures room { OnOk result (17 ≤ self.new.room) }
        ensures no_less { self.old.room ≤ self.new.room }
    {
        lay_all(&mut self.map, &mut self.landed)
    }

    /// Commits what a transaction wrote.
    pub(crate) fn land(&mut self, lines: MemberLines)
        requires { 0 < self.old.room }
        ensures lines { self.new.lines ≡ laid_all (writes_in lines.lines) self.old.lines }
        ensures room { self.old.room ≤ self.new.room + 1 }
    {
        match self.landed.push(Batch { lines }) {
            Ok(()) => {}
            Err(_) => unreachable!(),
        }
    }
}
