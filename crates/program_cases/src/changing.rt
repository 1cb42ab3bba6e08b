// Runs over a database of which one byte after another is changed.
ghost use Rattle.std.specs.Prelude.{◌<◌};

use crate::following::{behind_head, run_over, tell_each};
use crate::keeping::{Change, Spot, file_in, number_in, spoil};
use crate::runs::{Outcome, tell};
use rdb_outside::{Disk, MemoryDisk};
use rdb_types::{FileId, NoMemory};
use std::sync::Wait;
use std::thread::Threads;

/// The bytes of a file that are changed: each so many, from the first on, up to the end or that of the file. The bits of the mask are turned.
#[derive(Clone, Copy, Debug)]
struct Places {
    file: FileId,
    first: u32,
    end: u32,
    step: u32,
    mask: u8,
}

/// How the commands ended over a database of which a byte was changed.
#[derive(Clone, Copy, Debug)]
struct Ends {
    verify: u8,
    dump: u8,
    script: u8,
    /// The script said what it says where no byte is changed.
    is_as_before: bool,
}

/// How often a command ended with each status.
#[derive(Clone, Copy)]
struct Statuses {
    often: [u32; 256],
}

/// What came of the changes. Rows are told of where VERIFY ended with 0.
#[derive(Clone, Copy)]
struct Tally {
    as_before: u32,
    other: u32,
    verify: Statuses,
    dump: Statuses,
    script: Statuses,
}

// A line as `area 2 0 2048 7 1`.
fn places_of(words: &str) -> Option<Places> {
    let mut words = words.split(' ');
    Some(Places {
        file: file_in(words.next(), words.next())?,
        first: number_in(words.next())?,
        end: number_in(words.next())?,
        step: number_in(words.next())?,
        mask: u8::try_from(number_in(words.next())?).ok()?,
    })
}

impl Places {
    fn slot_bytes(self) -> u32
        ensures positive { 0 < result }
    {
        if self.file.slot_bytes() == 1024 {
            1024
        } else {
            512
        }
    }

    // The end of those that stand in slots of the disk.
    fn end_on(self, disk: &mut MemoryDisk) -> u32 {
        let slots = disk.length(self.file).unwrap_or(0);
        self.end.min(slots.saturating_mul(self.slot_bytes()))
    }

    fn has(self, at: u32) -> bool {
        at.saturating_sub(self.first).checked_rem(self.step) == Some(0)
    }

    fn spot(self, at: u32) -> Spot {
        let size = self.slot_bytes();
        Spot {
            file: self.file,
            slot: at / size,
            at: (at % size) as usize,
            change: Change::Turned(self.mask),
        }
    }
}

impl Statuses {
    const NONE: Statuses = Statuses { often: [0; 256] };

    fn add(&mut self, status: u8) {
        let often = &mut self.often[usize::from(status)];
        *often = often.saturating_add(1);
    }

    fn tell<R: Print>(&self, rt: &R, command: &str) {
        let mut word = " ended";
        let _ = print!(rt; "  {command}");
        for (status, often) in self.often.iter().enumerate() {
            if *often > 0 {
                let _ = print!(rt; "{word} {often} times with {status}");
                word = ",";
            }
        }
        let _ = println!(rt; "");
    }
}

impl Ends {
    fn is_another(self) -> bool {
        self.verify == 0 && !self.is_as_before
    }
}

impl Tally {
    const NONE: Tally = Tally {
        as_before: 0,
        other: 0,
        verify: Statuses::NONE,
        dump: Statuses::NONE,
        script: Statuses::NONE,
    };

    fn add(&mut self, ends: Ends) {
        self.verify.add(ends.verify);
        self.dump.add(ends.dump);
        self.script.add(ends.script);
        if ends.is_another() {
            self.other = self.other.saturating_add(1);
        } else if ends.verify == 0 {
            self.as_before = self.as_before.saturating_add(1);
        }
    }

    fn tell<R: Print>(&self, rt: &R) {
        let Tally {
            as_before,
            other,
            ..
        } = *self;
        self.verify.tell(rt, "VERIFY");
        let _ = println!(rt;
            "  behind its 0 the rows were as before {as_before} times, and others {other} times"
        );
        self.dump.tell(rt, "DUMP");
        self.script.tell(rt, "RDO");
    }
}

// What stands on a disk, on one of its own.
fn copy_of(disk: &MemoryDisk) -> Result<MemoryDisk, NoMemory> {
    disk.after(disk.moment(), u32::MAX)
}

// The commands over a disk, one after another; the first two change nothing.
fn ends_over<R: Print + AllocGlobal + Threads + Wait + Sync>(
    rt: &R,
    run: &str,
    disk: MemoryDisk,
    before: &Outcome,
) -> Result<Ends, NoMemory> {
    let verified = run_over(rt, "RMU/VERIFY PERS", disk)?;
    let verify = verified.status;
    let dumped = run_over(rt, "RMU/DUMP PERS", verified.into_disk())?;
    let dump = dumped.status;
    let read = run_over(rt, run, dumped.into_disk())?;
    Ok(Ends {
        verify,
        dump,
        script: read.status,
        is_as_before: read.status == before.status && read.out.written() == before.out.written(),
    })
}

// Each place in turn. Those that give other rows are told.
fn tell_places<R: Print + AllocGlobal + Threads + Wait + Sync>(
    rt: &R,
    run: &str,
    disk: &mut MemoryDisk,
    places: Places,
) -> Result<(), NoMemory> {
    let mut tally = Tally::NONE;
    let end = places.end_on(disk);
    let before = run_over(rt, run, copy_of(disk)?)?;
    tell(rt, &before);
    for at in places.first..end {
        if places.has(at) {
            let mut changed = copy_of(disk)?;
            spoil(&mut changed, places.spot(at));
            let ends = ends_over(rt, run, changed, &before)?;
            tally.add(ends);
            if ends.is_another() {
                let status = ends.script;
                let _ = println!(rt; "  byte {at} gives other rows, status {status}");
            }
        }
    }
    tally.tell(rt);
    Ok(())
}

/// `area 2 0 2048 7 1#RDO PERS s1 |PRINT 1` says the head to a new database, changes each seventh byte of the first 2,048 of the second area, its lowest bit, and does RMU/VERIFY, RMU/DUMP and the run over each database that this gives. Before the last run others may stand, which are done before.
pub fn tell_changed<R: Print + AllocGlobal + Threads + Wait + Sync>(
    rt: &R,
    head: &[u8],
    line: &str,
) -> Result<(), NoMemory> {
    let (words, runs) = line.split_once('#').unwrap_or((line, ""));
    let Some(places) = places_of(words) else {
        let _ = println!(rt; "  NO SUCH CASE");
        return Ok(());
    };
    let disk = behind_head(rt, head)?;
    let (mut disk, run) = match runs.rsplit_once('#') {
        None => (disk, runs),
        Some((before, run)) => (tell_each(rt, before, disk)?, run),
    };
    tell_places(rt, run, &mut disk, places)
}
