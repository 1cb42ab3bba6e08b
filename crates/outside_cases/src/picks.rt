// All images that a crash may leave.
use crate::disks::{first_byte, put};
use rdb_outside::{Disk, MemoryDisk};
use rdb_types::NoMemory;
use std::alloc::Global;

/// What a slot holds now, and as a mask the bytes that it may hold after a crash.
#[derive(Clone, Copy, Debug)]
struct Expected {
    now: u8,
    may: u8,
}

/// A call of a kind: a write of slot 0 or 1, a failed one of slot 0 or 1, a barrier, a failed barrier.
fn call(disk: &mut MemoryDisk, kind: u32, byte: u8) {
    let _done = if kind < 4 {
        put(disk, kind % 2, byte)
    } else {
        disk.barrier()
    };
}

/// What a slot may hold behind a call of that kind, by the words of the model.
fn expect(was: Expected, slot: u32, kind: u32, byte: u8) -> Expected {
    if kind == 4 {
        return Expected {
            now: was.now,
            may: mask(was.now),
        };
    }
    if kind > 4 || kind % 2 != slot {
        return was;
    }
    Expected {
        now: if kind < 2 { byte } else { was.now },
        may: was.may | mask(byte),
    }
}

fn mask(byte: u8) -> u8 {
    match byte {
        0 => 1,
        1 => 2,
        2 => 4,
        _ => 8,
    }
}

/// The number of a call that is to fail, and 0 for one of another kind.
fn failing(number: u32, kind: u32) -> u32 {
    match kind {
        2 | 3 | 5 => number,
        _ => 0,
    }
}

// What two slots hold, and may hold, behind three calls of these kinds; the disk does them.
fn expect_both(disk: &mut MemoryDisk, kinds: [u32; 3]) -> [Expected; 2] {
    let [a, b, c] = kinds;
    let mut first = Expected { now: 0, may: 1 };
    let mut second = Expected { now: 0, may: 1 };
    for (kind, byte) in [(a, 1), (b, 2), (c, 3)] {
        call(disk, kind, byte);
        first = expect(first, 0, kind, byte);
        second = expect(second, 1, kind, byte);
    }
    [first, second]
}

// Whether the picks give each image that the model allows, and no other.
fn gives(disk: &MemoryDisk, expected: [Expected; 2]) -> Result<bool, NoMemory> {
    let [first, second] = expected;
    let mut wanted = first.may.count_ones() * second.may.count_ones();
    let mut seen = [false; 64];
    for pick in 0..8 {
        let mut left = disk.after(disk.moment(), pick)?;
        let one = first_byte(&mut left, 0);
        let other = first_byte(&mut left, 1);
        if first.may & mask(one) == 0 || second.may & mask(other) == 0 {
            return Ok(false);
        }
        let place = usize::from(one % 8 * 8 + other % 8);
        if !seen[place] {
            seen[place] = true;
            wanted = wanted.saturating_sub(1);
        }
    }
    Ok(wanted == 0)
}

fn gives_all(alloc: Global, kinds: [u32; 3]) -> Result<bool, NoMemory> {
    let [a, b, c] = kinds;
    let fails = [failing(1, a), failing(2, b), failing(3, c)];
    let mut disk = MemoryDisk::new(alloc, 2, 3, &fails)?;
    let expected = expect_both(&mut disk, kinds);
    gives(&disk, expected)
}

/// Tells in how many of all sequences of three calls the picks give each image that may be left, and no other.
pub fn tell_picks(rt: &HostRuntime) -> Result<(), NoMemory> {
    let mut right = 0_u32;
    for sequence in 0..216u32 {
        let kinds = [sequence % 6, sequence / 6 % 6, sequence / 36 % 6];
        if gives_all(rt.alloc(), kinds)? {
            right = right.wrapping_add(1);
        }
    }
    let _ = println!(rt; "  in {right} of 216");
    Ok(())
}
