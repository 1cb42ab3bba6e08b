// Lines on their pages: pushed aside by who changes them, and seen by the reader.
ghost use Rattle.line_moves.specs.Changes.{IsPlaceOf};

use crate::{LIMIT, World, line_of, put_seen, split_key, tsn_at};
use case_words::put_key;
use line_moves::{Place, place_of, write_page};
use rdb_outside::MemoryDisk;
use rdb_types::{Dbkey, Line};
use version_writing::{line_for_reader, push_line};

/// Puts a line on its page, as a commit does.
fn put_line(rt: &HostRuntime, disk: &mut MemoryDisk, key: Dbkey, place: Place, line: Line)
    requires { IsPlaceOf key place }
{
    let mut page = [0; 1024];
    let lines = [(key, line)];
    if write_page(disk, &lines, 0, place, 440, &mut page).is_err() {
        let _ = println!(rt; "  fails");
    }
}

/// A transaction changes a line for the first time, and is committed: the line's key, its number and the byte. The chain of the new line is told.
pub fn tell_change(rt: &HostRuntime, world: &mut World, words: &str) {
    let Some((key, rest)) = split_key(words) else {
        return;
    };
    let tsn = tsn_at(rest, 0);
    let Some(place) = place_of(key) else {
        return;
    };
    if tsn.number == 0 || world.slots.set_aside(1).is_err() {
        let _ = println!(rt; "  full");
        return;
    }
    let mut chain = 0;
    if push_line(
        &mut world.disk,
        &mut world.slots,
        &mut chain,
        key,
        place,
        tsn,
    )
    .is_err()
    {
        let _ = println!(rt; "  fails");
        return;
    }
    let _ = println!(rt; "  chain {chain}");
    if chain == 0 {
        world.slots.leave(1);
    }
    let mut line = line_of(rest);
    line.chain = chain;
    put_line(rt, &mut world.disk, key, place, line);
}

/// What the reader sees of a line that is on its page.
pub fn tell_read(rt: &HostRuntime, world: &mut World, words: &str) {
    let Some((key, _)) = split_key(words) else {
        return;
    };
    let Some(place) = place_of(key) else {
        return;
    };
    let _ = print!(rt; " ");
    put_key(rt, key);
    match line_for_reader(&mut world.disk, LIMIT, &world.reader, key, place) {
        Ok(seen) => put_seen(rt, seen),
        Err(_) => {
            let _ = println!(rt; " fails");
        }
    }
}

/// What a transaction pushed is given back.
pub fn tell_given(rt: &HostRuntime, world: &mut World, words: &str) {
    let tsn = tsn_at(words, 0);
    if tsn.number == 0 {
        let _ = println!(rt; "  nothing");
        return;
    }
    world.slots.give_pushed(tsn);
}
