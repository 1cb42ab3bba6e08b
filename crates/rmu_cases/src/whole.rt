// The verification of a whole database, as it stands and with each byte of a slot changed.
use crate::disks::{Snapshot, flip, named_file};
use crate::texts::{tell_stop, tell_text};
use before_images::read_before_images;
use case_words::number_of;
use lines_at_rest::{AreaLines, FaultyPages, RestReading, read_area};
use rdb_outside::MemoryDisk;
use rdb_types::{Bytes, FileId, NoMemory};
use rmu_texts::{Faults, faults_text};
use rmu_verify::verify;
use std::alloc::Global;

/// The logical areas of the databases of these cases.
const AREAS: [u32; 4] = [1, 16, 17, 18];

/// What came of changed bytes: faults were listed, the database was refused, nothing was listed and the lines are as before, or they aren't.
#[derive(Clone, Copy, Debug)]
struct Tally {
    listed: u32,
    refused: u32,
    same: u32,
    other: u32,
}

/// All faults of the database.
pub fn tell_checked(rt: &HostRuntime, disk: &mut MemoryDisk) -> Result<(), NoMemory> {
    let Ok(faults) = verify(rt.alloc(), disk) else {
        tell_stop(rt);
        return Ok(());
    };
    let mut text = Bytes::new(rt.alloc());
    faults_text(faults.as_slice(), &mut text)?;
    tell_text(rt, text.as_slice());
    Ok(())
}

fn is_same(one: &AreaLines, other: &AreaLines) -> bool {
    let one = one.as_slice();
    let other = other.as_slice();
    one.len() == other.len()
        && one
            .iter()
            .zip(other)
            .all(|(a, b)| a.0 == b.0 && a.1.bytes() == b.1.bytes())
}

fn lines_of(alloc: Global, disk: &mut MemoryDisk, area: u32) -> Option<AreaLines> {
    let before = read_before_images(alloc, disk).ok()?;
    let held = RestReading {
        before,
        faulty: FaultyPages::LeftOut,
    };
    read_area(alloc, disk, &held, area).ok()
}

// Whether a disk has just these lines.
fn has_lines(alloc: Global, disk: &mut MemoryDisk, lines: &[AreaLines]) -> bool {
    for (area, kept) in AREAS.iter().zip(lines) {
        match lines_of(alloc, disk, *area) {
            Some(found) if is_same(&found, kept) => {}
            _ => return false,
        }
    }
    true
}

// The lines of a disk, and what stands there.
#[derive(Drop)]
struct Base {
    snapshot: Snapshot,
    lines: Vec<AreaLines>,
}

fn base_of(alloc: Global, disk: &mut MemoryDisk) -> Result<Base, NoMemory> {
    let mut lines = Vec::new(alloc);
    for area in AREAS {
        lines.push(lines_of(alloc, disk, area).unwrap_or(AreaLines::new(alloc)))?;
    }
    let snapshot = Snapshot::of(alloc, disk)?;
    Ok(Base { snapshot, lines })
}

// Changes one byte, and verifies the database.
fn change_one(
    rt: &HostRuntime,
    base: &Base,
    file: FileId,
    slot: u32,
    at: usize,
    tally: &mut Tally,
) -> Result<(), NoMemory> {
    let mut changed = base.snapshot.disk(rt.alloc())?;
    flip(&mut changed, file, slot, at);
    match verify(rt.alloc(), &mut changed) {
        Err(_) => tally.refused = tally.refused.saturating_add(1),
        Ok(faults) if !faults.is_empty() => tally.listed = tally.listed.saturating_add(1),
        Ok(_) => {
            if has_lines(rt.alloc(), &mut changed, base.lines.as_slice()) {
                tally.same = tally.same.saturating_add(1);
            } else {
                let _ = println!(rt; "  {at} is another database");
                tally.other = tally.other.saturating_add(1);
            }
        }
    }
    Ok(())
}

/// `each area 2 1 1024` changes each of the first 1,024 bytes of slot 1 of area file 2 in turn, its highest bit, and tells how often the verification lists a fault, refuses the database, or lists none where the lines are as before; and each place at which they aren't.
pub fn tell_each(rt: &HostRuntime, disk: &mut MemoryDisk, rest: &str) -> Result<(), NoMemory> {
    let mut words = rest.split(' ');
    let kind = words.next().unwrap_or("");
    let number = number_of(words.next()).unwrap_or(0);
    let slot = number_of(words.next()).unwrap_or(0);
    let count = number_of(words.next()).unwrap_or(0) as usize;
    let Some(file) = named_file(kind, number) else {
        tell_stop(rt);
        return Ok(());
    };
    let mut tally = Tally {
        listed: 0,
        refused: 0,
        same: 0,
        other: 0,
    };
    let base = base_of(rt.alloc(), disk)?;
    for at in 0..count {
        change_one(rt, &base, file, slot, at, &mut tally)?;
    }
    let Tally {
        listed,
        refused,
        same,
        other,
    } = tally;
    let _ = println!(rt; "listed {listed}, refused {refused}, the same {same}, another {other}");
    Ok(())
}
