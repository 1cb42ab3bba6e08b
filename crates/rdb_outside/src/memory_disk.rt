// A disk in memory. It keeps each call, so that it can tell what a crash at any moment leaves.
ghost use Rattle.std.specs.Prelude.{◌≡◌, ◌≤◌, ◌⊎◌, ◌++◌, [], ◌∷◌, ℕ, ◌<◌, ◌+◌, false, take, length, slice_index_or, if◌then◌else◌, IfOk, IfSome, OnOk, OnErr, nat_lt, ◌||◌, ◌&&◌, not, List, Bool, ◌==◌, ◌%◌, ◌/◌, ◌^◌};
ghost use Rattle.std.specs.Prelude.{true, IsTrue};
ghost use Rattle.std.specs.Vec.{vec_len, vec_capacity};
ghost use Rattle.rdb_types.specs.File.{slot_bytes};
ghost use Rattle.rdb_outside.specs.Memory.{content_of, memory_view, IsImage, written};
ghost use Rattle.rdb_outside.specs.Causes.{Rose};
ghost use Rattle.rdb_outside.specs.Disk.{IsStable, zeros, View, Counts, Keeps, Puts, Adds, SameContent, Pending, StillPending};
ghost use Rattle.rdb_outside.specs.Failing.{failed, is_settled, is_written, may_be_left};
ghost use Rattle.rdb_outside.specs.MemoryLaws.{content_left};
ghost use Rattle.rdb_outside.specs.Picks.{picked, crash_of, turned, bit_of};
ghost use Rattle.rdb_outside.specs.Plan.{is_listed, fails_at, does_at, IsMeantToFail, IsMeantToWork, are_within, is_within};

use crate::event::{Effect, Event};
use crate::{Disk, Failed};
use rdb_types::{FileId, Moment, NoMemory};
use std::alloc::Global;

/// A disk in memory, whose memory is taken when it is made. It keeps a record of its calls, so it answers for every moment up to now.
#[derive(Drop)]
pub struct MemoryDisk {
    alloc: Global,
    slots: u32,
    calls: usize,
    fails: Vec<u32>,
    done: Vec<u32>,
    faults: u64,
    log: Vec<Event>,
    ghost room: { calls ≤ vec_capacity log },
    ghost within: { are_within slots log.items ≡ true },
}

/// Keeps a call where there is room for it, and takes no memory.
fn noted(log: &mut Vec<Event>, calls: usize, event: Event) -> bool
    requires { calls ≤ vec_capacity log.old }
    ensures items { log.new.items ≡ (if result then log.old.items ++ event ∷ [] else log.old.items) }
    ensures full { result ≡ nat_lt (length log.old.items) calls }
    ensures capacity { vec_capacity log.old ≤ vec_capacity log.new }
{
    if log.len() < calls {
        log.push(event).is_ok()
    } else {
        false
    }
}

/// One call. It fails where it is to fail, and where there is no room for it.
fn call(
    log: &mut Vec<Event>,
    faults: &mut u64,
    calls: usize,
    fails: bool,
    event: Event,
) -> Result<(), Failed>
    requires { calls ≤ vec_capacity log.old }
    ensures ok { OnOk result
        ((log.new.items ≡ log.old.items ++ event ∷ []) × (faults.new ≡ faults.old)) }
    ensures err { OnErr result ((log.new.items ≡ log.old.items ++ event ∷ [])
        ⊎ (log.new.items ≡ log.old.items)) }
    ensures kept { length log.old.items < calls → log.new.items ≡ log.old.items ++ event ∷ [] }
    ensures only { OnErr result ((fails ≡ true) ⊎ (calls ≤ length log.old.items)) }
    ensures works { OnOk result ((fails ≡ false) × (length log.old.items < calls)) }
    ensures rose { OnErr result (Rose faults.old faults.new × (faults.old ≤ faults.new)) }
    ensures capacity { vec_capacity log.old ≤ vec_capacity log.new }
{
    let is_kept = noted(log, calls, event);
    if fails || !is_kept {
        *faults = faults.saturating_add(1);
        return Err(Failed {});
    }
    Ok(())
}

/// Whether a number is listed.
fn is_among(numbers: &[u32], number: usize) -> bool
    ensures { result ≡ is_listed numbers.now number }
{
    numbers.iter().any(|n| *n as usize == number)
}

/// Reads a slot as the calls left it.
fn read_from(log: &[Event], file: FileId, slot: u32, into: &mut [u8])
    requires { length into.old ≡ slot_bytes file }
    ensures { into.new ≡ content_of log.now file slot }
{
    into.fill(0);
    for event in log {
        if event.writes(file, slot) {
            into.copy_from_slice(&event.bytes[..file.slot_bytes()]);
        }
    }
}

/// A number of slots behind which every slot is zeros.
fn end_of(log: &[Event], slots: u32, file: FileId) -> u32
    requires { are_within slots log.now ≡ true }
    ensures zeros { (slot : ℕ) → result ≤ slot → content_of log.now file slot ≡ zeros file }
    ensures within { result ≤ slots }
{
    let mut end = 0;
    for event in log {
        if event.writes(file, event.slot) && end <= event.slot {
            end = event.slot + 1;
        }
    }
    end
}

/// How many calls there were up to the last barrier that succeeded.
fn settled(history: &[Event]) -> usize
    ensures within { result ≤ length history.now }
    ensures later { (k : ℕ) (d : _) → result ≤ k → k < length history.now
        → is_settled (slice_index_or history.now k d).effect ≡ false }
    ensures none { (crash_of (take result history.now)).late ≡ [] }
    ensures stable { (file : _) (slot : ℕ) → (crash_of (take result history.now)).stable file slot
        ≡ content_of (take result history.now) file slot }
{
    let mut end = 0;
    for (i, event) in history.iter().enumerate() {
        if event.is_settled() {
            end = i + 1;
        }
    }
    end
}

/// Writes again all that was written.
fn write_again(log: &mut Vec<Event>, history: &[Event]) -> Result<(), NoMemory>
    requires { log.old.items ≡ [] }
    ensures same { OnOk result ((file : _) (slot : ℕ)
        → content_of log.new.items file slot ≡ content_of history.now file slot) }
    ensures within { OnOk result ((slots : ℕ) → are_within slots history.now ≡ true
        → are_within slots log.new.items ≡ true) }
{
    for event in history {
        if event.is_written() {
            log.push(*event)?;
        }
    }
    Ok(())
}

/// Whether the j-th write is kept. The choices begin anew behind the last.
fn is_picked(kept: &[bool], j: usize) -> bool
    ensures { result ≡ turned kept.now j }
{
    if kept.is_empty() {
        return false;
    }
    kept[j % kept.len()]
}

/// Writes again those of the later writes that are picked.
fn write_picked(
    log: &mut Vec<Event>,
    history: &[Event],
    settled: usize,
    kept: &[bool],
) -> Result<(), NoMemory>
    requires within { settled ≤ length history.now }
    requires later { (k : ℕ) (d : _) → settled ≤ k → k < length history.now
        → is_settled (slice_index_or history.now k d).effect ≡ false }
    requires none { (crash_of (take settled history.now)).late ≡ [] }
    requires same { (file : _) (slot : ℕ) → content_of log.old.items file slot
        ≡ (crash_of (take settled history.now)).stable file slot }
    ensures picked { OnOk result ((file : _) (slot : ℕ) → content_of log.new.items file slot
        ≡ picked history.now (turned kept.now) file slot) }
    ensures fits { OnOk result ((slots : ℕ) → are_within slots history.now ≡ true
        → are_within slots log.old.items ≡ true → are_within slots log.new.items ≡ true) }
{
    let mut count = 0;
    for k in settled..history.len() {
        let event = history[k];
        if event.may_be_left() {
            if is_picked(kept, count) {
                log.push(event.kept())?;
            }
            count += 1;
        }
    }
    Ok(())
}

/// The bits of a number, from the lowest.
fn bits(pick: u32) -> [bool; 32]
    ensures all { length result ≡ 32 }
    ensures each { (j : ℕ) → j < 32 → slice_index_or result j false ≡ bit_of pick j }
{
    let mut bits = [false; 32];
    for j in 0..32 {
        bits[j] = (pick >> j) % 2 == 1;
    }
    bits
}

impl MemoryDisk {
    ghost use Rattle.rdb_outside.specs.Told.{told_by, plan_of, calls_of, picked_at};
    ghost use Rattle.rdb_outside.specs.Picks.{late_writes};

    /// A disk of zeros, with room for so many slots in each file and for so many calls. The device calls whose numbers, counted from 1, stand in `fails` fail once each. A slot or a call past the room fails.
    pub fn new(alloc: Global, slots: u32, calls: u32, fails: &[u32]) -> Result<MemoryDisk, NoMemory>
        ensures zeros { IfOk result (λ d. (file : _) (slot : ℕ)
            → (told_by d).content file slot ≡ zeros file) }
        ensures stable { IfOk result (λ d. IsStable (told_by d)) }
        ensures begins { IfOk result (λ d. (told_by d).moment ≡ 0) }
        ensures plan { IfOk result (λ d. plan_of d
            ≡ record { slots = slots; calls = calls; fails = fails.now; done = [] }) }
    {
        MemoryDisk::failing(alloc, slots, calls, fails, &[])
    }

    /// Such a disk, of which the calls whose numbers stand in `done` fail as well, and yet do what they are asked: what such a write was given is what later reads give.
    pub fn failing(
        alloc: Global,
        slots: u32,
        calls: u32,
        fails: &[u32],
        done: &[u32],
    ) -> Result<MemoryDisk, NoMemory>
        ensures zeros { IfOk result (λ d. (file : _) (slot : ℕ)
            → (told_by d).content file slot ≡ zeros file) }
        ensures stable { IfOk result (λ d. IsStable (told_by d)) }
        ensures begins { IfOk result (λ d. (told_by d).moment ≡ 0) }
        ensures plan { IfOk result (λ d. plan_of d
            ≡ record { slots = slots; calls = calls; fails = fails.now; done = done.now }) }
    {
        let calls = calls as usize;
        Ok(MemoryDisk {
            alloc,
            slots,
            calls,
            fails: fails.to_vec(alloc)?,
            done: done.to_vec(alloc)?,
            faults: 0,
            log: Vec::with_capacity(alloc, calls)?,
        })
    }

    /// One image that a crash at that moment leaves, as a disk of its own. Bit j of `pick`, from the lowest, keeps the j-th write since the last barrier, a failed one too; the 33rd goes by the lowest bit again. The new disk has room for as many calls again, and none of them is to fail.
    pub fn after(&self, moment: Moment, pick: u32) -> Result<MemoryDisk, NoMemory>
        requires { moment.number ≤ (told_by self.now).moment }
        ensures left { IfOk result (λ d.
            (told_by self.now).left_since moment.number (told_by d).content) }
        ensures stable { IfOk result (λ d. IsStable (told_by d)) }
        ensures image { IfOk result (λ d. (file : _) (slot : ℕ) → (told_by d).content file slot
            ≡ picked_at self.now moment.number (bit_of pick) file slot) }
        ensures plan { IfOk result (λ d. plan_of d ≡ record {
          slots = self.now.slots;
          calls = (told_by d).moment + self.now.calls;
          fails = [];
          done = [];
        }) }
    {
        let disk = self.after_picked(moment, &bits(pick))?;
        Ok(disk)
    }

    /// The image in which those of the writes since the last barrier are kept for which `kept` is true, the first of it for the first of them. It begins anew behind its last.
    pub fn after_picked(&self, moment: Moment, kept: &[bool]) -> Result<MemoryDisk, NoMemory>
        requires { moment.number ≤ (told_by self.now).moment }
        ensures left { IfOk result (λ d.
            (told_by self.now).left_since moment.number (told_by d).content) }
        ensures stable { IfOk result (λ d. IsStable (told_by d)) }
        ensures image { IfOk result (λ d. (file : _) (slot : ℕ) → (told_by d).content file slot
            ≡ picked_at self.now moment.number (turned kept.now) file slot) }
        ensures plan { IfOk result (λ d. plan_of d ≡ record {
          slots = self.now.slots;
          calls = (told_by d).moment + self.now.calls;
          fails = [];
          done = [];
        }) }
    {
        let history = &self.log[..moment.number as usize];
        let settled = settled(history);
        let mut log = Vec::with_capacity(self.alloc, self.calls.saturating_add(history.len()))?;
        write_again(&mut log, &history[..settled])?;
        write_picked(&mut log, history, settled, kept)?;
        log.push(Event::plain(Effect::Settled))?;
        log.reserve(self.calls)?;
        let calls = log.len() + self.calls;
        Ok(MemoryDisk {
            alloc: self.alloc,
            slots: self.slots,
            calls,
            fails: Vec::new(self.alloc),
            done: Vec::new(self.alloc),
            faults: 0,
            log,
        })
    }

    /// Whether the next call is one that is to fail.
    fn is_to_fail(&self) -> bool
        ensures { result ≡ fails_at (plan_of self.now) (length self.now.log.items) }
    {
        let number = self.log.len().saturating_add(1);
        is_among(&self.fails, number) || is_among(&self.done, number)
    }

    /// Whether the next call is to fail, or is one of a slot that there isn't.
    fn is_to_fail_at(&self, slot: u32) -> bool
        ensures fails { result ≡ true → (fails_at (plan_of self.now) (length self.now.log.items) ≡ true)
            ⊎ (self.now.slots ≤ slot) }
        ensures works { result ≡ false → (fails_at (plan_of self.now) (length self.now.log.items) ≡ false)
            × (slot < self.now.slots) }
    {
        self.is_to_fail() || self.slots <= slot
    }

    /// Whether the next call does what it is asked.
    fn does(&self) -> bool
        ensures { result ≡ does_at (plan_of self.now) (length self.now.log.items) }
    {
        let number = self.log.len().saturating_add(1);
        is_among(&self.done, number) || !is_among(&self.fails, number)
    }

    /// The next call as it is kept.
    fn as_kept(&self, event: Event) -> Event
        ensures { result ≡ (if does_at (plan_of self.now) (length self.now.log.items) then event else failed event) }
    {
        if self.does() { event } else { event.failed() }
    }

    /// A write as it is kept. One of a slot that there isn't writes nothing.
    fn writing(&self, file: FileId, slot: u32, from: &[u8]) -> Event
        requires { length from.now ≡ slot_bytes file }
        ensures within { is_within self.now.slots result ≡ true }
        ensures plain { is_settled result.effect ≡ false }
        ensures puts { may_be_left result.effect ≡ true
            → (result.file ≡ file) × (result.slot ≡ slot) × (written result ≡ from.now) }
        ensures does { slot < self.now.slots → is_written result.effect
            ≡ does_at (plan_of self.now) (length self.now.log.items) }
        ensures may { slot < self.now.slots → may_be_left result.effect ≡ true }
        ensures lost { does_at (plan_of self.now) (length self.now.log.items) ≡ false
            → is_written result.effect ≡ false }
    {
        if self.slots <= slot {
            return Event::plain(Effect::Passed);
        }
        self.as_kept(Event::writing(file, slot, from))
    }
}

impl Disk for MemoryDisk {
    ghost use Rattle.rdb_outside.specs.Told.{told_by, plan_of};

    ghost view = { λ d. memory_view d.log.items d.faults };

    ghost content_left = { λ d t told le. content_left d.log.items d.faults t le };

    fn read(&mut self, file: FileId, slot: u32, into: &mut [u8]) -> Result<(), Failed>
        requires { length into.old ≡ slot_bytes file }
        ensures counts { Counts (told_by self.old) (told_by self.new) result }
        ensures kept { IsTrue (told_by self.old).tells → Keeps (told_by self.old) (told_by self.new) }
        ensures bytes { OnOk result (IsTrue (told_by self.old).tells
            → into.new ≡ (told_by self.old).content file slot) }
        ensures only { OnErr result (IsMeantToFail (plan_of self.old) (told_by self.old).moment
            ⊎ (self.old.slots ≤ slot)) }
        ensures works { OnOk result (IsMeantToWork (plan_of self.old) (told_by self.old).moment
            × (slot < self.old.slots)) }
        ensures plan { plan_of self.new ≡ plan_of self.old }
        ensures still { StillPending (told_by self.old) (told_by self.new) }
        ensures step { (told_by self.old).moment < self.old.calls
            → (told_by self.new).moment ≡ (told_by self.old).moment + 1 }
    {
        let fails = self.is_to_fail_at(slot);
        call(
            &mut self.log,
            &mut self.faults,
            self.calls,
            fails,
            Event::plain(Effect::Passed),
        )?;
        read_from(&self.log, file, slot, into);
        Ok(())
    }

    fn write(&mut self, file: FileId, slot: u32, from: &[u8]) -> Result<(), Failed>
        requires { length from.now ≡ slot_bytes file }
        ensures counts { Counts (told_by self.old) (told_by self.new) result }
        ensures pending { IsTrue (told_by self.old).tells
            → Adds file slot from.now (told_by self.old) (told_by self.new) }
        ensures written { OnOk result (IsTrue (told_by self.old).tells
            → Puts file slot from.now (told_by self.old).content (told_by self.new).content) }
        ensures failed { OnErr result (IsTrue (told_by self.old).tells
            → SameContent (told_by self.old).content (told_by self.new).content
            ⊎ Puts file slot from.now (told_by self.old).content (told_by self.new).content) }
        ensures only { OnErr result (IsMeantToFail (plan_of self.old) (told_by self.old).moment
            ⊎ (self.old.slots ≤ slot)) }
        ensures works { OnOk result (IsMeantToWork (plan_of self.old) (told_by self.old).moment
            × (slot < self.old.slots)) }
        ensures done { does_at (plan_of self.old) (told_by self.old).moment ≡ true
            → (told_by self.old).moment < self.old.calls → slot < self.old.slots
            → Puts file slot from.now (told_by self.old).content (told_by self.new).content }
        ensures may { (told_by self.old).moment < self.old.calls → slot < self.old.slots
            → Pending (told_by self.new) file slot from.now }
        ensures lost { does_at (plan_of self.old) (told_by self.old).moment ≡ false
            → SameContent (told_by self.old).content (told_by self.new).content }
        ensures plan { plan_of self.new ≡ plan_of self.old }
        ensures still { StillPending (told_by self.old) (told_by self.new) }
        ensures step { (told_by self.old).moment < self.old.calls
            → (told_by self.new).moment ≡ (told_by self.old).moment + 1 }
    {
        let fails = self.is_to_fail_at(slot);
        let event = self.writing(file, slot, from);
        call(&mut self.log, &mut self.faults, self.calls, fails, event)?;
        Ok(())
    }

    fn barrier(&mut self) -> Result<(), Failed>
        ensures counts { Counts (told_by self.old) (told_by self.new) result }
        ensures kept { IsTrue (told_by self.old).tells → Keeps (told_by self.old) (told_by self.new) }
        ensures stable { OnOk result (IsTrue (told_by self.old).tells → IsStable (told_by self.new)) }
        ensures only { OnErr result (IsMeantToFail (plan_of self.old) (told_by self.old).moment) }
        ensures works { OnOk result (IsMeantToWork (plan_of self.old) (told_by self.old).moment) }
        ensures plan { plan_of self.new ≡ plan_of self.old }
        ensures still { does_at (plan_of self.old) (told_by self.old).moment ≡ false
            → StillPending (told_by self.old) (told_by self.new) }
        ensures step { (told_by self.old).moment < self.old.calls
            → (told_by self.new).moment ≡ (told_by self.old).moment + 1 }
    {
        let fails = self.is_to_fail();
        let event = self.as_kept(Event::plain(Effect::Settled));
        call(&mut self.log, &mut self.faults, self.calls, fails, event)?;
        Ok(())
    }

    fn length(&mut self, file: FileId) -> Result<u32, Failed>
        ensures counts { Counts (told_by self.old) (told_by self.new) result }
        ensures kept { IsTrue (told_by self.old).tells → Keeps (told_by self.old) (told_by self.new) }
        ensures zeros { IfOk result (λ n. IsTrue (told_by self.old).tells
            → (slot : ℕ) → n ≤ slot → (told_by self.old).content file slot ≡ zeros file) }
        ensures within { IfOk result (λ n. n ≤ self.old.slots) }
        ensures only { OnErr result (IsMeantToFail (plan_of self.old) (told_by self.old).moment) }
        ensures works { OnOk result (IsMeantToWork (plan_of self.old) (told_by self.old).moment) }
        ensures plan { plan_of self.new ≡ plan_of self.old }
        ensures still { StillPending (told_by self.old) (told_by self.new) }
        ensures step { (told_by self.old).moment < self.old.calls
            → (told_by self.new).moment ≡ (told_by self.old).moment + 1 }
    {
        let fails = self.is_to_fail();
        let end = end_of(&self.log, self.slots, file);
        call(
            &mut self.log,
            &mut self.faults,
            self.calls,
            fails,
            Event::plain(Effect::Passed),
        )?;
        Ok(end)
    }

    fn moment(&self) -> Moment {
        Moment {
            number: self.log.len() as u64,
        }
    }
}
