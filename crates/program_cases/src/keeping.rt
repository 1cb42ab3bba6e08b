// Commands that read a database, over one that NEW made.
use crate::runs::{NONE, Outcome, run_failing, run_on};
use crate::texts::words_in;
use rdb_outside::{Disk, MemoryDisk, MemorySink, MemorySource};
use rdb_types::{FileId, FileKind, NoMemory};
use std::sync::Wait;
use std::thread::Threads;

/// What becomes of a byte.
#[derive(Clone, Copy, Debug)]
pub enum Change {
    /// It is this one.
    Put(u8),
    /// The bits of this mask are turned.
    Turned(u8),
}

impl Change {
    fn of(self, byte: u8) -> u8 {
        match self {
            Change::Put(other) => other,
            Change::Turned(mask) => byte ^ mask,
        }
    }
}

/// A byte of a slot of a file, and what becomes of it.
#[derive(Clone, Copy, Debug)]
pub struct Spot {
    pub file: FileId,
    pub slot: u32,
    pub at: usize,
    pub change: Change,
}

/// The number of a word.
pub fn number_in(word: Option<&str>) -> Option<u32> {
    word?.parse::<u32>().ok()
}

fn kind_of(word: &str) -> Option<FileKind> {
    match word {
        "root" => Some(FileKind::Root),
        "area" => Some(FileKind::Area),
        "snap" => Some(FileKind::Snap),
        "ruj" => Some(FileKind::Ruj),
        "aij" => Some(FileKind::Aij),
        _ => None,
    }
}

/// The file of a word and a number.
pub fn file_in(kind: Option<&str>, number: Option<&str>) -> Option<FileId> {
    Some(FileId {
        kind: kind_of(kind?)?,
        number: number_in(number)?,
    })
}

// The file, the slot, the place in it and the byte that words say.
fn spot_of(words: &str) -> Option<Spot> {
    let mut words = words.split(' ');
    let file = file_in(words.next(), words.next())?;
    let slot = number_in(words.next())?;
    let at = number_in(words.next())? as usize;
    let byte = u8::try_from(number_in(words.next())?).ok()?;
    Some(Spot {
        file,
        slot,
        at,
        change: Change::Put(byte),
    })
}

/// Changes a byte on the disk.
pub fn spoil(disk: &mut MemoryDisk, spot: Spot) {
    if spot.file.slot_bytes() == 1024 {
        let mut slot = [0; 1024];
        if disk.read(spot.file, spot.slot, &mut slot).is_ok() && spot.at < 1024 {
            slot[spot.at] = spot.change.of(slot[spot.at]);
            let _ = disk.write(spot.file, spot.slot, &slot);
        }
    } else if spot.file.slot_bytes() == 512 {
        let mut slot = [0; 512];
        if disk.read(spot.file, spot.slot, &mut slot).is_ok() && spot.at < 512 {
            slot[spot.at] = spot.change.of(slot[spot.at]);
            let _ = disk.write(spot.file, spot.slot, &slot);
        }
    }
}

/// `area 1 1 493 18` puts byte 18 at place 493 of slot 1 of the first area.
pub fn put_byte(disk: &mut MemoryDisk, words: &str) {
    if let Some(spot) = spot_of(words) {
        spoil(disk, spot);
    }
}

// Runs a command over a disk, past a sink of which one call fails, 0 for none.
fn run_over<R: Print + AllocGlobal + Threads + Wait + Sync>(
    rt: &R,
    line: &str,
    disk: MemoryDisk,
    sink: u32,
) -> Result<Outcome, NoMemory> {
    let alloc = rt.alloc();
    let words = words_in(alloc, line)?;
    let source = MemorySource::new(alloc, Vec::new(alloc), &[])?;
    let out = MemorySink::new(alloc, 65536, &[sink])?;
    Ok(run_on(rt, words.as_slice(), source, out, disk))
}

// The disk that NEW leaves, with room for what only reads.
fn new_disk<R: Print + AllocGlobal + Threads + Wait + Sync>(
    rt: &R,
) -> Result<MemoryDisk, NoMemory> {
    let words = words_in(rt.alloc(), "NEW P")?;
    Ok(run_failing(rt, words.as_slice(), Vec::new(rt.alloc()), NONE)?.into_disk())
}

/// `over RMU/VERIFY P` runs a command over a new database; `over root 0 0 6 2|RMU/VERIFY P` puts byte 2 at place 6 of slot 0 of the root first.
pub fn run_made<R: Print + AllocGlobal + Threads + Wait + Sync>(
    rt: &R,
    line: &str,
    sink: u32,
) -> Result<Outcome, NoMemory> {
    let mut disk = new_disk(rt)?;
    match line.split_once('|') {
        None => run_over(rt, line, disk, sink),
        Some((words, command)) => {
            put_byte(&mut disk, words);
            run_over(rt, command, disk, sink)
        }
    }
}
