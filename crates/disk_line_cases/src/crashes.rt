// What a crash leaves of an area.
use crate::opening::{Opened, opened};
use case_words::{put_bytes, put_key};
use line_view::{Known, Seen, View};
use rdb_outside::{Disk, MemoryDisk};
use rdb_types::Session;
use std::alloc::Global;
use store_desk::Answer;

/// The lines of an area that are there behind a crash now, by the writes that it keeps of those that aren't stable.
fn left(alloc: Global, disk: &MemoryDisk, pick: u32, area: u32) -> Option<Known> {
    let crashed = disk.after(disk.moment(), pick).ok()?;
    let mut desk = opened(alloc, crashed)?;
    let reader = Session { number: 1 };
    let mut known = Known::new(alloc);
    desk.begin_reading(reader);
    for _ in 0..1000 {
        if desk.learn_area(reader, area, &mut known) != Answer::More {
            return Some(known);
        }
    }
    None
}

fn is_same_line(one: Seen, other: Seen) -> bool {
    match (one, other) {
        (Seen::Present(bytes), Seen::Present(others)) => bytes == others,
        (Seen::Absent, Seen::Absent) => true,
        _ => false,
    }
}

/// Whether both have the same lines of an area.
fn are_same(one: &Known, other: &Known, area: u32) -> bool {
    let (Some(keys), Some(others)) = (one.area(area), other.area(area)) else {
        return false;
    };
    if keys != others {
        return false;
    }
    for key in keys {
        if !is_same_line(one.line(*key), other.line(*key)) {
            return false;
        }
    }
    true
}

fn put_lines(rt: &HostRuntime, known: &Known, area: u32) {
    let Some(keys) = known.area(area) else {
        let _ = println!(rt; "  not read");
        return;
    };
    let _ = print!(rt; " ");
    for key in keys {
        put_key(rt, *key);
        if let Seen::Present(bytes) = known.line(*key) {
            put_bytes(rt, bytes);
        }
    }
    let _ = println!(rt; "");
}

/// Tells which lines of an area a crash may leave, by each pick of so many late writes, where they are others than those of the pick before.
pub fn say_crashes(rt: &HostRuntime, desk: &Opened, area: u32, bits: u32) {
    let mut last = None;
    for pick in 0..1u32.wrapping_shl(bits) {
        let Some(known) = left(rt.alloc(), desk.store().disk(), pick, area) else {
            let _ = println!(rt; "  not opened");
            continue;
        };
        let is_known = match &last {
            Some(before) => are_same(before, &known, area),
            None => false,
        };
        if !is_known {
            put_lines(rt, &known, area);
            last = Some(known);
        }
    }
}
