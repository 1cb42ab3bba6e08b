//! Whether statements over lines come to what they come to over tables. Each line of standard input is RDO: its statements are worked by `RdoStatements` over what is known of a map of lines, which learns each need, and done by `does` on tables in memory, with the Dbkeys that the first gave its rows. Replies, Dbkeys, standings and tables are compared, and where they differ the line and both stand on standard output. A line that begins with `-` begins with a new database, one with `?` tells what its statements come to, and one with `!` lets all that is known be forgotten. At the end stands how many statements came to what.
#![tactic(auto)]

mod compared;
mod counts;
mod lines;
mod over_tables;
mod rooms;
mod session;
mod world;

use rdb_types::{Bytes, NoMemory};
use std::alloc::Global;
use std::process::ExitCode;
use world::World;

// Says a line, whose answers are told.
fn say_aloud(
    alloc: Global,
    world: &mut World,
    line: &str,
    out: &mut Bytes,
) -> Result<(), NoMemory> {
    out.extend(line.as_bytes())?;
    out.push(b'\n')?;
    let mut differs = Bytes::new(alloc);
    world.say(alloc, line.as_bytes(), out, &mut differs)?;
    out.extend(differs.as_slice())
}

// Says a line, which is told where something differs.
fn say_quietly(
    alloc: Global,
    world: &mut World,
    line: &str,
    out: &mut Bytes,
) -> Result<(), NoMemory> {
    let mut told = Bytes::new(alloc);
    world.say(alloc, line.as_bytes(), &mut told, out)?;
    if out.as_slice().is_empty() {
        return Ok(());
    }
    out.extend(b"IN ")?;
    out.extend(line.as_bytes())?;
    out.push(b'\n')
}

/// Adds what a line writes.
fn say(alloc: Global, world: &mut World, line: &str, out: &mut Bytes) -> Result<(), NoMemory> {
    if line.starts_with("-") {
        return world.begin(alloc);
    }
    if line == "!" {
        world.forget(alloc);
        return Ok(());
    }
    match line.strip_prefix("?") {
        Some(text) => say_aloud(alloc, world, text, out),
        None => say_quietly(alloc, world, line, out),
    }
}

fn tell<R: Print>(rt: &R, out: &Bytes) {
    if let Ok(text) = std::str::from_utf8(out.as_slice()) {
        let _ = print!(rt; "{text}");
    }
}

fn say_line(rt: &HostRuntime, world: &mut World, line: &str) -> Result<(), NoMemory> {
    let mut out = Bytes::new(rt.alloc());
    say(rt.alloc(), world, line, &mut out)?;
    tell(rt, &out);
    Ok(())
}

fn tell_counts(rt: &HostRuntime, world: &World) -> Result<(), NoMemory> {
    let mut out = Bytes::new(rt.alloc());
    world.counts().put(&mut out)?;
    tell(rt, &out);
    Ok(())
}

// Says each line, and gives the status.
fn say_lines(rt: &HostRuntime, world: &mut World) -> u8 {
    for line in rt.lines(rt.alloc()) {
        let Ok(line) = line else {
            return 3;
        };
        if say_line(rt, world, line.as_str()).is_err() {
            return 5;
        }
    }
    if tell_counts(rt, world).is_ok() { 0 } else { 5 }
}

fn main(rt: HostRuntime) -> ExitCode {
    match World::new(rt.alloc()) {
        Ok(mut world) => ExitCode::from(say_lines(&rt, &mut world)),
        Err(_) => ExitCode::from(5),
    }
}
