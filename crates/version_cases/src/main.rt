//! Cases of versions of lines as text, over a disk in memory. Each line of standard input pushes a version aside, begins a reader, says how a line stands, or changes a line on its page; it is echoed on standard output, and below it stands what comes of it.
#![tactic(auto)]

ghost use Rattle.std.specs.Prelude.{◌<◌, ◌^◌};
ghost use Rattle.snapshot_file.specs.Entry.{IsVersion};

mod pages;

use case_words::{key_of, number_of, put_bytes, put_key};
use pages::{tell_change, tell_given, tell_read};
use rdb_outside::{Disk, MemoryDisk};
use rdb_types::{Dbkey, Image, Line, LineState, NoMemory, Tsn};
use std::alloc::Global;
use std::process::ExitCode;
use version_reading::{Reader, bytes_of, push_version, reader_version};
use version_writing::FileSlots;

/// No reader reads more slots.
const LIMIT: u32 = 8;

/// What the lines speak of.
#[derive(Drop)]
struct World {
    disk: MemoryDisk,
    reader: Reader,
    /// The slots of the snapshot file of relations.
    slots: FileSlots,
}

fn new_world(alloc: Global) -> Result<World, NoMemory> {
    let disk = MemoryDisk::new(alloc, LIMIT, 1_000, &[])?;
    let reader = Reader::new(Tsn { number: 1 }, Vec::new(alloc));
    let slots = FileSlots::new(alloc, LIMIT)?;
    Ok(World {
        disk,
        reader,
        slots,
    })
}

/// The number at this place, from 0; 0 where there is none.
fn nth(words: &str, nth: usize) -> u32 {
    number_of(words.split(' ').nth(nth)).unwrap_or(0)
}

fn tsn_at(words: &str, at: usize) -> Tsn
    ensures { result.number < 2 ^ 62 }
{
    Tsn {
        number: u64::from(nth(words, at)),
    }
}

/// The key in front of the words, and what is behind it.
fn split_key(words: &str) -> Option<(Dbkey, &str)> {
    let (key, rest) = words.split_once(' ')?;
    Some((key_of(key)?, rest))
}

/// The line that a transaction left with a chain: of one byte, or erased where that is 0.
fn line_of(words: &str) -> Line
    ensures tsn { result.tsn.number < 2 ^ 62 }
    ensures version { IsVersion result.state result.image }
{
    let tsn = tsn_at(words, 0);
    let chain = nth(words, 1);
    match u8::try_from(nth(words, 2)).unwrap_or(0) {
        0 => Line {
            state: LineState::Erased,
            tsn,
            chain,
            image: Image::from_bytes(b""),
        },
        byte => Line {
            state: LineState::Present,
            tsn,
            chain,
            image: Image::from_bytes(&[byte]),
        },
    }
}

/// The transaction numbers in the words behind the first.
fn active_in(alloc: Global, words: &str) -> Result<Vec<Tsn>, NoMemory> {
    let mut active = Vec::new(alloc);
    for text in words.split(' ').skip(1) {
        if let Some(number) = number_of(Some(text)) {
            active.push(Tsn {
                number: u64::from(number),
            })?;
        }
    }
    Ok(active)
}

/// A transaction pushes a line aside: its chain, its number, the line's key and how it stands.
fn tell_push(rt: &HostRuntime, disk: &mut MemoryDisk, words: &str) {
    let (chain, rest) = words.split_once(' ').unwrap_or((words, ""));
    let (pusher, rest) = rest.split_once(' ').unwrap_or((rest, ""));
    let chain = nth(chain, 0);
    let Some((key, stands)) = split_key(rest) else {
        return;
    };
    if chain == 0 || push_version(disk, chain, key, tsn_at(pusher, 0), &line_of(stands)).is_err() {
        let _ = println!(rt; "  fails");
    }
}

/// What the reader sees of a line that stands so.
fn tell_seen(rt: &HostRuntime, world: &mut World, words: &str) {
    let Some((key, stands)) = split_key(words) else {
        return;
    };
    let _ = print!(rt; " ");
    put_key(rt, key);
    match reader_version(&mut world.disk, LIMIT, &world.reader, key, line_of(stands)) {
        Ok(seen) => put_seen(rt, seen),
        Err(_) => {
            let _ = println!(rt; " fails");
        }
    }
}

/// The version that a reader sees.
fn put_seen(rt: &HostRuntime, seen: Option<Line>) {
    let Some(version) = seen else {
        let _ = println!(rt; " isn't there");
        return;
    };
    let number = version.tsn.number;
    let _ = print!(rt; " of transaction {number}:");
    match bytes_of(Some(version)) {
        Some(image) => put_bytes(rt, image.bytes()),
        None => {
            let _ = print!(rt; " erased");
        }
    }
    let _ = println!(rt; "");
}

fn say(rt: &HostRuntime, world: &mut World, text: &str) -> Result<(), NoMemory> {
    let (about, rest) = text.split_once(' ').unwrap_or((text, ""));
    match about {
        "" | "!" => {}
        "push" => tell_push(rt, &mut world.disk, rest),
        "reader" => {
            let active = active_in(rt.alloc(), rest)?;
            world.reader = Reader::new(tsn_at(rest, 0), active);
        }
        "line" => tell_seen(rt, world, rest),
        "change" => tell_change(rt, world, rest),
        "read" => tell_read(rt, world, rest),
        "given" => tell_given(rt, world, rest),
        _ => {
            let _ = println!(rt; "  NO SUCH CASE");
        }
    }
    Ok(())
}

// Says each line, and gives the status.
fn say_lines(rt: &HostRuntime, world: &mut World) -> u8 {
    for line in rt.lines(rt.alloc()) {
        let Ok(line) = line else {
            return 3;
        };
        let text = line.as_str();
        let _ = println!(rt; "{text}");
        if say(rt, world, text).is_err() {
            return 5;
        }
    }
    0
}

fn main(rt: HostRuntime) -> ExitCode {
    match new_world(rt.alloc()) {
        Ok(mut world) => ExitCode::from(say_lines(&rt, &mut world)),
        Err(_) => ExitCode::from(5),
    }
}
