// Disks over the files of the folder.
use rdb_hostdisk::HostDisk;
use rdb_outside::{Disk, Failed};
use rdb_types::{FileId, FileKind, NoMemory, Word};

/// The disks that are open.
pub type Disks = Vec<HostDisk<HostRuntime>>;

fn number_of(word: Option<&str>) -> u32 {
    match word {
        Some(word) => word.parse::<u32>().unwrap_or(0),
        None => 0,
    }
}

// The file of a word as `area:3`; the root's where no other is named.
fn file_of(word: &str) -> FileId {
    let (kind, number) = word.split_once(':').unwrap_or((word, "0"));
    FileId {
        kind: match kind {
            "aij" => FileKind::Aij,
            "area" => FileKind::Area,
            "snap" => FileKind::Snap,
            "ruj" => FileKind::Ruj,
            "backup" => FileKind::Backup,
            "aij-backup" => FileKind::AijBackup,
            _ => FileKind::Root,
        },
        number: number_of(Some(number)),
    }
}

fn open(rt: &HostRuntime, disks: &mut Disks, base: &str) -> Result<(), NoMemory> {
    let base = Word::from_slice(rt.alloc(), base.as_bytes())?;
    let disk = HostDisk::over(rt, rt.alloc(), &base)?;
    let Ok(()) = disks.push(disk) else {
        return Err(NoMemory {});
    };
    Ok(())
}

fn open_reading(rt: &HostRuntime, disks: &mut Disks, base: &str) -> Result<(), NoMemory> {
    let base = Word::from_slice(rt.alloc(), base.as_bytes())?;
    let disk = HostDisk::reading(rt, rt.alloc(), &base)?;
    let Ok(()) = disks.push(disk) else {
        return Err(NoMemory {});
    };
    Ok(())
}

fn tell_done(rt: &HostRuntime, done: Result<(), Failed>) {
    if done.is_err() {
        let _ = println!(rt; "  fails");
    }
}

// Writes a slot whose bytes are all this one.
fn put(disk: &mut HostDisk<HostRuntime>, file: FileId, slot: u32, byte: u8) -> Result<(), Failed> {
    let bytes = [byte; 1024];
    let from = &bytes[..file.slot_bytes()];
    disk.write(file, slot, from)
}

// Reads a slot whose bytes are all one.
fn tell_slot(rt: &HostRuntime, disk: &mut HostDisk<HostRuntime>, file: FileId, slot: u32) {
    let mut bytes = [9; 1024];
    let into = &mut bytes[..file.slot_bytes()];
    if disk.read(file, slot, into).is_err() {
        let _ = println!(rt; "  fails");
        return;
    }
    let first = into.first().copied().unwrap_or(9);
    let _ = match into.iter().all(|byte| *byte == first) {
        true => println!(rt; "  all {first}"),
        false => println!(rt; "  MIXED"),
    };
}

fn tell_length(rt: &HostRuntime, disk: &mut HostDisk<HostRuntime>, file: FileId) {
    let _ = match disk.length(file) {
        Ok(length) => println!(rt; "  {length} slots"),
        Err(_) => println!(rt; "  fails"),
    };
}

// Does what a line says of one disk: its call, a file, a slot and a byte.
fn say_of_disk(
    rt: &HostRuntime,
    disk: &mut HostDisk<HostRuntime>,
    about: &str,
    rest: &str,
) -> bool {
    let mut words = rest.split(' ').skip(1);
    let file = file_of(words.next().unwrap_or(""));
    let slot = number_of(words.next());
    let byte = u8::try_from(number_of(words.next())).unwrap_or(0);
    match about {
        "write" => tell_done(rt, put(disk, file, slot, byte)),
        "read" => tell_slot(rt, disk, file, slot),
        "length" => tell_length(rt, disk, file),
        "barrier" => tell_done(rt, disk.barrier()),
        "moment" => {
            let moment = disk.moment().number;
            let _ = println!(rt; "  {moment}");
        }
        _ => return false,
    }
    true
}

/// Does what a line says of disks. False where it says nothing of the kind.
pub fn say_of_disks(
    rt: &HostRuntime,
    disks: &mut Disks,
    about: &str,
    rest: &str,
) -> Result<bool, NoMemory> {
    match about {
        "open" => open(rt, disks, rest)?,
        "open-reading" => open_reading(rt, disks, rest)?,
        "close" => disks.clear(),
        _ => {
            let number = number_of(rest.split(' ').next());
            let Some(disk) = disks.get_mut(number as usize) else {
                return Ok(false);
            };
            return Ok(say_of_disk(rt, disk, about, rest));
        }
    }
    Ok(true)
}
