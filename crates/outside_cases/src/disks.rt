// A disk in memory.
use crate::numbers::{nth, numbers_behind};
use rdb_outside::{Disk, Failed, MemoryDisk};
use rdb_types::{FileId, FileKind, Moment, NoMemory};

const ROOT: FileId = FileId {
    kind: FileKind::Root,
    number: 0,
};

const AIJ: FileId = FileId {
    kind: FileKind::Aij,
    number: 0,
};

/// A disk of so many slots a file and so many calls, with the calls that fail, and those of them that are done all the same.
fn new_disk(rt: &HostRuntime, disk: &mut MemoryDisk, words: &str) -> Result<(), NoMemory> {
    let alloc = rt.alloc();
    let fails = numbers_behind(alloc, words, "fails")?;
    let does = numbers_behind(alloc, words, "does")?;
    *disk = MemoryDisk::failing(alloc, nth(words, 0), nth(words, 1), &fails, &does)?;
    Ok(())
}

fn byte_of(number: u32) -> u8 {
    u8::try_from(number).unwrap_or(0)
}

fn tell_done(rt: &HostRuntime, done: Result<(), Failed>) {
    if done.is_err() {
        let _ = println!(rt; "  fails");
    }
}

/// The first byte of a slot of the root's file, and 99 where it can't be read.
pub fn first_byte(disk: &mut MemoryDisk, slot: u32) -> u8 {
    let mut bytes = [9; 1024];
    match disk.read(ROOT, slot, &mut bytes) {
        Ok(()) => bytes[0],
        Err(_) => 99,
    }
}

/// Writes a slot of the root's file, whose bytes are all this one.
pub fn put(disk: &mut MemoryDisk, slot: u32, byte: u8) -> Result<(), Failed> {
    disk.write(ROOT, slot, &[byte; 1024])
}

fn tell_length(rt: &HostRuntime, disk: &mut MemoryDisk, file: FileId) {
    let _ = match disk.length(file) {
        Ok(length) => println!(rt; "  {length} slots"),
        Err(_) => println!(rt; "  fails"),
    };
}

fn tell_slots(rt: &HostRuntime, disk: &mut MemoryDisk, slots: u32) {
    let _ = print!(rt; "  slots");
    for slot in 0..slots {
        let byte = first_byte(disk, slot);
        let _ = print!(rt; " {byte}");
    }
    let _ = println!(rt; "");
}

// What a crash leaves behind so many calls, where the pick says which writes are kept: the first byte of so many slots.
fn tell_crash(rt: &HostRuntime, disk: &MemoryDisk, words: &str) -> Result<(), NoMemory> {
    let number = u64::from(nth(words, 0));
    if number > disk.moment().number {
        let _ = println!(rt; "  NO SUCH MOMENT");
        return Ok(());
    }
    let mut left = disk.after(Moment { number }, nth(words, 1))?;
    tell_slots(rt, &mut left, nth(words, 2));
    tell_length(rt, &mut left, ROOT);
    Ok(())
}

// The same at this moment, where the writes at these places are kept alone.
fn tell_picked(rt: &HostRuntime, disk: &MemoryDisk, words: &str) -> Result<(), NoMemory> {
    let mut kept = [false; 40];
    for place in numbers_behind(rt.alloc(), words, "keeping")? {
        kept[place as usize % 40] = true;
    }
    let moment = disk.moment();
    let mut left = disk.after_picked(moment, &kept)?;
    tell_slots(rt, &mut left, nth(words, 0));
    Ok(())
}

fn tell_moment(rt: &HostRuntime, disk: &MemoryDisk) {
    let moment = disk.moment().number;
    let _ = println!(rt; "  {moment} calls");
}

/// Does what a line says of a disk. False where it says nothing of the kind.
pub fn say_of_disk(
    rt: &HostRuntime,
    disk: &mut MemoryDisk,
    about: &str,
    words: &str,
) -> Result<bool, NoMemory> {
    match about {
        "disk" => new_disk(rt, disk, words)?,
        "write" => tell_done(rt, put(disk, nth(words, 0), byte_of(nth(words, 1)))),
        "write-journal" => tell_done(rt, disk.write(AIJ, nth(words, 0), &[1; 512])),
        "read" => {
            let byte = first_byte(disk, nth(words, 0));
            let _ = println!(rt; "  {byte}");
        }
        "barrier" => tell_done(rt, disk.barrier()),
        "length" => tell_length(rt, disk, ROOT),
        "length-of-journal" => tell_length(rt, disk, AIJ),
        "moment" => tell_moment(rt, disk),
        "crash" => tell_crash(rt, disk, words)?,
        "crash-now" => tell_picked(rt, disk, words)?,
        _ => return Ok(false),
    }
    Ok(true)
}
