//! Cases of what stands outside the engine, in memory, and of the words of its command line, as text. Each line of standard input names a call and what it is given; it is echoed on standard output, and below it stands what comes of it.
#![tactic(auto)]

mod commands;
mod disks;
mod numbers;
mod picks;
mod streams;

use commands::tell_command;
use disks::say_of_disk;
use picks::tell_picks;
use rdb_outside::{MemoryDisk, MemorySink, MemorySource};
use rdb_types::NoMemory;
use std::alloc::Global;
use std::process::ExitCode;
use streams::{say_of_sink, say_of_source};

/// What the lines speak of.
#[derive(Drop)]
struct World {
    disk: MemoryDisk,
    source: MemorySource,
    sink: MemorySink,
}

fn new_world(alloc: Global) -> Result<World, NoMemory> {
    let disk = MemoryDisk::new(alloc, 1, 1, &[])?;
    let source = MemorySource::new(alloc, Vec::new(alloc), &[])?;
    let sink = MemorySink::new(alloc, 0, &[])?;
    Ok(World { disk, source, sink })
}

fn say(rt: &HostRuntime, world: &mut World, text: &str) -> Result<(), NoMemory> {
    let (about, rest) = text.split_once(' ').unwrap_or((text, ""));
    let is_said = match about {
        "" | "!" => true,
        "words" => {
            tell_command(rt, rest)?;
            true
        }
        "picks" => {
            tell_picks(rt)?;
            true
        }
        _ => {
            say_of_disk(rt, &mut world.disk, about, rest)?
                || say_of_source(rt, &mut world.source, about, rest)?
                || say_of_sink(rt, &mut world.sink, about, rest)?
        }
    };
    if !is_said {
        let _ = println!(rt; "  NO SUCH CASE");
    }
    Ok(())
}

// Says each line, and gives the status.
fn say_lines(rt: &HostRuntime, world: &mut World) -> u8 {
    for line in rt.lines(rt.alloc()) {
        let Ok(line) = line else {
            return 3;
        };
        let text = line.as_str();
        let _ = println!(rt; "{text}");
        if say(rt, world, text).is_err() {
            return 5;
        }
    }
    0
}

fn main(rt: HostRuntime) -> ExitCode {
    match new_world(rt.alloc()) {
        Ok(mut world) => ExitCode::from(say_lines(&rt, &mut world)),
        Err(_) => ExitCode::from(5),
    }
}
