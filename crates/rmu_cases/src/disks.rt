// A disk in memory, and bytes that are written to it.
ghost use Rattle.std.specs.Prelude.{◌≡◌};
ghost use Rattle.rdb_types.specs.File.{slot_bytes};

use case_words::{image_of, number_of};
use rdb_outside::{Disk, MemoryDisk};
use rdb_types::{FileId, FileKind, Image, NoMemory};
use slot_fields::put_bytes;
use std::alloc::Global;

/// The slots of each file.
const SLOTS: u32 = 500;

/// How many calls there may be.
const CALLS: u32 = 6000;

/// How many slots of each file are copied.
const COPIED: u32 = 3;

/// Bytes for a place of a slot of the file of this number.
#[derive(Drop)]
struct Put {
    number: u32,
    slot: u32,
    at: usize,
    image: Image,
}

/// A disk of which the call of this number fails, 0 for none.
pub fn new_disk(alloc: Global, word: &str) -> Result<MemoryDisk, NoMemory> {
    let fails = [number_of(Some(word)).unwrap_or(0)];
    MemoryDisk::new(alloc, SLOTS, CALLS, &fails)
}

// The file's number, the slot, the place in it, and the bytes.
fn put_of(rest: &str) -> Option<Put> {
    let mut words = rest.split(' ');
    let number = number_of(words.next())?;
    let slot = number_of(words.next())?;
    let at = number_of(words.next())? as usize;
    let image = image_of(words.next()?)?;
    Some(Put {
        number,
        slot,
        at,
        image,
    })
}

fn put_at(held: &mut [u8], put: &Put) -> bool {
    let bytes = put.image.bytes();
    if put.at > held.len() || bytes.len() > held.len() - put.at {
        return false;
    }
    put_bytes(held, put.at, bytes);
    true
}

// Puts the bytes into a slot of 1,024.
fn put_large(disk: &mut MemoryDisk, file: FileId, put: &Put) -> bool
    requires { slot_bytes file ≡ 1024 }
{
    let mut held = [0; 1024];
    if disk.read(file, put.slot, &mut held).is_err() || !put_at(&mut held, put) {
        return false;
    }
    disk.write(file, put.slot, &held).is_ok()
}

// Puts the bytes into a slot of 512.
fn put_small(disk: &mut MemoryDisk, file: FileId, put: &Put) -> bool
    requires { slot_bytes file ≡ 512 }
{
    let mut held = [0; 512];
    if disk.read(file, put.slot, &mut held).is_err() || !put_at(&mut held, put) {
        return false;
    }
    disk.write(file, put.slot, &held).is_ok()
}

/// The file of a word and a number: `root`, `aij`, `ruj` or `area`.
pub fn named_file(about: &str, number: u32) -> Option<FileId> {
    let kind = match about {
        "area" => FileKind::Area,
        "root" => FileKind::Root,
        "ruj" => FileKind::Ruj,
        "aij" => FileKind::Aij,
        _ => return None,
    };
    Some(FileId { kind, number })
}

/// `area 2 1 24 0d00` puts these bytes from byte 24 of slot 1 of area file 2 on. So do `root`, `ruj` and `aij` in their files. False is answered where the line says nothing of the kind.
pub fn write_bytes(disk: &mut MemoryDisk, about: &str, rest: &str) -> bool {
    let Some(put) = put_of(rest) else {
        return false;
    };
    let Some(file) = named_file(about, put.number) else {
        return false;
    };
    put_into(disk, file, &put)
}

// Puts the bytes into a slot of the size that the file's have.
fn put_into(disk: &mut MemoryDisk, file: FileId, put: &Put) -> bool {
    if file.slot_bytes() == 1024 {
        put_large(disk, file, put)
    } else if file.slot_bytes() == 512 {
        put_small(disk, file, put)
    } else {
        false
    }
}

/// Changes the highest bit of a byte.
pub fn flip(disk: &mut MemoryDisk, file: FileId, slot: u32, at: usize) {
    if file.slot_bytes() == 1024 {
        let mut held = [0; 1024];
        if disk.read(file, slot, &mut held).is_ok() && at < 1024 {
            held[at] ^= 128;
            let _ = disk.write(file, slot, &held);
        }
    } else if file.slot_bytes() == 512 {
        let mut held = [0; 512];
        if disk.read(file, slot, &mut held).is_ok() && at < 512 {
            held[at] ^= 128;
            let _ = disk.write(file, slot, &held);
        }
    }
}

/// What stands in the first slots of a disk's files.
#[derive(Drop)]
pub struct Snapshot {
    large: Vec<(FileId, u32, [u8; 1024])>,
    small: Vec<(FileId, u32, [u8; 512])>,
}

impl Snapshot {
    // Keeps the first slots of a file that aren't zeros.
    fn keep(&mut self, disk: &mut MemoryDisk, file: FileId) -> Result<(), NoMemory> {
        let mut large = [0; 1024];
        let mut small = [0; 512];
        for slot in 0..COPIED {
            if file.slot_bytes() == 1024 {
                if disk.read(file, slot, &mut large).is_ok() && large.iter().any(|b| *b != 0) {
                    self.large.push((file, slot, large))?;
                }
            } else if file.slot_bytes() == 512 {
                if disk.read(file, slot, &mut small).is_ok() && small.iter().any(|b| *b != 0) {
                    self.small.push((file, slot, small))?;
                }
            }
        }
        Ok(())
    }

    /// Of a disk.
    pub fn of(alloc: Global, disk: &mut MemoryDisk) -> Result<Snapshot, NoMemory> {
        let mut snapshot = Snapshot {
            large: Vec::new(alloc),
            small: Vec::new(alloc),
        };
        for (about, first, last) in [
            ("root", 0, 0),
            ("aij", 0, 0),
            ("area", 1, 3),
            ("ruj", 1, 16),
        ] {
            for number in first..=last {
                if let Some(file) = named_file(about, number) {
                    snapshot.keep(disk, file)?;
                }
            }
        }
        Ok(snapshot)
    }

    /// A disk with these slots.
    pub fn disk(&self, alloc: Global) -> Result<MemoryDisk, NoMemory> {
        let mut disk = MemoryDisk::new(alloc, SLOTS, 400, &[])?;
        for (file, slot, bytes) in self.large.as_slice() {
            if file.slot_bytes() == 1024 {
                let _ = disk.write(*file, *slot, bytes);
            }
        }
        for (file, slot, bytes) in self.small.as_slice() {
            if file.slot_bytes() == 512 {
                let _ = disk.write(*file, *slot, bytes);
            }
        }
        Ok(disk)
    }
}
