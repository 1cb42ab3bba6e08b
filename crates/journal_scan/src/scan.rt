// The state machine that the slots behind the header are given to.
ghost use Rattle.std.specs.Prelude.{◌≡◌, ◌<◌, ◌≤◌, ◌+◌, ◌^◌, ℕ, List, [], ◌∷◌, ◌++◌, map, Option, Some, None, length, IfOk, OnOk, OnErr};
ghost use Rattle.aij_journal.specs.declared.part.AijPart.{AijPart as Part};
ghost use Rattle.journal_scan.specs.declared.scan.Scan.{Scan as Scanned};
ghost use Rattle.journal_scan.specs.Whole.{Holds};
ghost use Rattle.journal_scan.specs.Standing.{what_stands};
ghost use Rattle.journal_scan.specs.Reading.{begins_at, read, read_all, ended, turn_at, slot_of, no_lines, is_next as is_next_in, grows_by as grows_by_in, grown, closed};

use crate::{Group, GroupLines, Groups};
use aij_journal::{AijPart, GroupLine, NoMemory, Tsn, read_slot};
use std::alloc::Global;
use std::mem;

/// A group of which not every slot was read: what its first slot says of it, and the lines so far.
#[derive(Drop)]
pub struct Begun {
    pub tsn: Tsn,
    pub count: u32,
    pub lines: GroupLines,
}

/// Where reading stands: behind a whole group, within one, or at its end.
#[derive(Drop)]
pub enum Stage {
    Between,
    Within(Begun),
    Ended,
}

/// Whether the next slot is wanted.
#[derive(Clone, Copy, Debug, PartialEq, Eq)]
pub enum Turn {
    More,
    Ended,
}

/// A journal as far as it was read: its whole groups, and the slot and the number of the group to be written next. Slots count from 0, and slot 0 is the header.
#[derive(Drop)]
pub struct Scan {
    pub groups: Groups,
    pub next_slot: u32,
    pub next_number: u64,
    pub stage: Stage,
}

impl Scan {
    /// Begins at a slot, which the group of this number is to begin with. It takes no memory.
    pub fn at(alloc: Global, slot: u32, number: u64) -> Scan
        ensures { result ≡ begins_at slot number }
    {
        Scan {
            groups: Groups::new(alloc),
            next_slot: slot,
            next_number: number,
            stage: Stage::Between,
        }
    }

    /// Begins behind the header, which gives the number of the first group. It takes no memory.
    pub fn new(alloc: Global, first: u64) -> Scan
        ensures { result ≡ begins_at 1 first }
    {
        Scan::at(alloc, 1, first)
    }

    /// Takes the next slot, and says whether reading goes on. Where memory is wanted and there is none, the scan ends with the groups that it has.
    #[tactic(auto, using(crate::proofs::Steps::one_more, crate::proofs::Stands::stands))]
    pub fn take(&mut self, alloc: Global, slot: &[u8]) -> Result<Turn, NoMemory>
        requires size { length slot.now ≡ 512 }
        requires number { slot_of self.old + 1 < 2 ^ 32 }
        ensures taken { OnOk result (self.new ≡ read self.old (what_stands slot.now)) }
        ensures turn { IfOk result (λ turn. turn ≡ turn_at self.new.stage) }
        ensures next { IfOk result (λ turn. turn ≡ Turn.More → slot_of self.new ≡ slot_of self.old + 1) }
        ensures err { OnErr result (self.new ≡ ended self.old) }

        // Whatever slots were taken before.
        ensures so_far { OnOk result ((first : Scanned) (slots : List (List ℕ))
            → self.old ≡ read_all first (map what_stands slots)
            → self.new ≡ read_all first (map what_stands (slots ++ slot.now ∷ []))) }
    {
        match self.advance(alloc, slot) {
            Ok(turn) => Ok(turn),
            Err(e) => Err(e),
        }
    }

    fn advance(&mut self, alloc: Global, slot: &[u8]) -> Result<Turn, NoMemory>
        requires size { length slot.now ≡ 512 }
        requires number { slot_of self.old + 1 < 2 ^ 32 }
        ensures taken { OnOk result ((what : Option Part) → Holds slot.now what
            → self.new ≡ read self.old what) }
        ensures turn { IfOk result (λ turn. turn ≡ turn_at self.new.stage) }
        ensures next { IfOk result (λ turn. turn ≡ Turn.More → slot_of self.new ≡ slot_of self.old + 1) }
        ensures err { OnErr result (self.new ≡ ended self.old) }
    {
        let stage = mem::replace(&mut self.stage, Stage::Ended);
        let Some(part) = read_slot(slot) else {
            return Ok(Turn::Ended);
        };
        let begun = match stage {
            Stage::Between => Begun::new(alloc, &part),
            Stage::Within(begun) => begun,
            Stage::Ended => return Ok(Turn::Ended),
        };
        if part.number != self.next_number || !begun.is_next(&part) {
            return Ok(Turn::Ended);
        }
        match part.line {
            None => self.close(begun),
            Some(line) => self.grow(begun, line),
        }
    }

    /// The slot to be taken next.
    pub fn slot(&self) -> u32
        requires { slot_of self.now < 2 ^ 32 }
        ensures { result ≡ slot_of self.now }
    {
        match &self.stage {
            Stage::Within(begun) => self.next_slot + begun.lines.len() as u32,
            _ => self.next_slot,
        }
    }

    // The group's commit.
    fn close(&mut self, begun: Begun) -> Result<Turn, NoMemory>
        requires ended { self.old ≡ ended self.old }
        requires slot { self.old.next_slot + (length begun.lines + 1) < 2 ^ 32 }
        requires number { self.old.next_number ≤ 2 ^ 62 }
        ensures grown { OnOk result (self.new ≡ grown self.old begun None) }
        ensures turn { IfOk result (λ turn. turn ≡ turn_at self.new.stage) }
        ensures err { OnErr result (self.new ≡ self.old) }
    {
        let slots = begun.lines.len() as u32 + 1;
        if slots != begun.count {
            return Ok(Turn::Ended);
        }
        self.groups.push(Group {
            number: self.next_number,
            tsn: begun.tsn,
            lines: begun.lines,
        })?;
        self.next_slot += slots;
        self.next_number += 1;
        self.stage = Stage::Between;
        Ok(Turn::More)
    }

    // A line of the group.
    fn grow(&mut self, begun: Begun, line: GroupLine) -> Result<Turn, NoMemory>
        requires ended { self.old ≡ ended self.old }
        requires slot { self.old.next_slot + (length begun.lines + 1) < 2 ^ 32 }
        ensures grown { OnOk result (self.new ≡ grown self.old begun (Some line)) }
        ensures turn { IfOk result (λ turn. turn ≡ turn_at self.new.stage) }
        ensures err { OnErr result (self.new ≡ self.old) }
    {
        if !begun.grows_by(&line) {
            return Ok(Turn::Ended);
        }
        let Begun {
            tsn,
            count,
            mut lines,
        } = begun;
        lines.push(line)?;
        self.stage = Stage::Within(Begun { tsn, count, lines });
        Ok(Turn::More)
    }
}

impl Begun {
    fn new(alloc: Global, part: &AijPart) -> Begun
        ensures { result ≡ no_lines part.now }
    {
        Begun {
            tsn: part.tsn,
            count: part.count,
            lines: GroupLines::new(alloc),
        }
    }

    fn is_next(&self, part: &AijPart) -> bool
        ensures { result ≡ is_next_in self.now part.now }
    {
        part.tsn.number == self.tsn.number
            && part.count == self.count
            && part.index as usize == self.lines.len()
    }

    // Whether the line may come next.
    fn grows_by(&self, line: &GroupLine) -> bool
        requires { length self.now.lines + 1 < 2 ^ 32 }
        ensures { result ≡ grows_by_in self.now line.now }
    {
        let is_behind = match self.lines.as_slice().last() {
            None => true,
            Some(last) => last.key < line.key,
        };
        (self.lines.len() as u32 + 1) < self.count && is_behind
    }
}
