// What lines of the cases say.
use crate::changing::tell_changed;
use crate::failing::tell_failures;
use crate::following::{tell_anew, tell_crashes, tell_deaths, tell_runs};
use crate::keeping::run_made;
use crate::making::{tell_again, tell_stopped};
use crate::meeting::tell_meeting;
use crate::runs::{Fails, NONE, run_failing, tell};
use crate::texts::{add_text, script_of, scripts_in, words_in};
use rdb_types::NoMemory;
use std::alloc::Global;
use std::sync::Wait;
use std::thread::Threads;

/// A script is longer than this by one at least where it is too long.
const MAX_SCRIPT: u32 = 1_048_576;

/// What each script begins with.
#[derive(Drop)]
pub struct World {
    head: Vec<u8>,
}

impl World {
    pub fn new(alloc: Global) -> Result<World, NoMemory> {
        Ok(World {
            head: Vec::new(alloc),
        })
    }
}

fn run<R: Print + AllocGlobal + Threads + Wait + Sync>(
    rt: &R,
    line: &str,
    fails: Fails,
) -> Result<(), NoMemory> {
    let words = words_in(rt.alloc(), line)?;
    let scripts = scripts_in(rt.alloc(), line)?;
    tell(rt, &run_failing(rt, words.as_slice(), scripts, fails)?);
    Ok(())
}

// A script of the head and the text, by one session.
fn say_text<R: Print + AllocGlobal + Threads + Wait + Sync>(
    rt: &R,
    head: &[u8],
    text: &str,
) -> Result<(), NoMemory> {
    let alloc = rt.alloc();
    let mut script = Vec::from_slice(alloc, head)?;
    add_text(&mut script, text)?;
    let mut scripts = Vec::new(alloc);
    scripts.push(script)?;
    let words = words_in(alloc, "RDO PERS s1")?;
    tell(rt, &run_failing(rt, words.as_slice(), scripts, NONE)?);
    Ok(())
}

// A script of blanks that is too long.
fn run_long<R: Print + AllocGlobal + Threads + Wait + Sync>(
    rt: &R,
    line: &str,
) -> Result<(), NoMemory> {
    let mut script = Vec::new(rt.alloc());
    for _ in 0..=MAX_SCRIPT {
        script.push(b' ')?;
    }
    let mut scripts = Vec::new(rt.alloc());
    scripts.push(script)?;
    let words = words_in(rt.alloc(), line)?;
    tell(rt, &run_failing(rt, words.as_slice(), scripts, NONE)?);
    Ok(())
}

// A condition of so many links. No link takes stack, in reading and in letting go.
fn say_chain<R: Print + AllocGlobal + Threads + Wait + Sync>(
    rt: &R,
    links: &str,
) -> Result<(), NoMemory> {
    let alloc = rt.alloc();
    let mut script = script_of(alloc, "FOR X IN T WITH X.A = 1")?;
    for _ in 0..links.parse::<u32>().unwrap_or(0) {
        add_text(&mut script, "+1*2 OR X.B=1 AND NOT X.C=2*3")?;
    }
    add_text(&mut script, " PRINT X.A END_FOR")?;
    let mut scripts = Vec::new(alloc);
    scripts.push(script)?;
    let words = words_in(alloc, "RDO PERS s1")?;
    tell(rt, &run_failing(rt, words.as_slice(), scripts, NONE)?);
    Ok(())
}

// A line as `3 NEW P`, whose first word is the number of the call that fails.
fn failing<R: Print + AllocGlobal + Threads + Wait + Sync>(
    rt: &R,
    about: &str,
    rest: &str,
) -> Result<(), NoMemory> {
    let (number, line) = rest.split_once(' ').unwrap_or((rest, ""));
    let number = number.parse::<u32>().unwrap_or(0);
    let fails = match about {
        "failing-source" => Fails {
            source: number,
            ..NONE
        },
        "failing-sink" => Fails {
            sink: number,
            ..NONE
        },
        _ => Fails {
            disk: number,
            ..NONE
        },
    };
    run(rt, line, fails)
}

// A command over a new database, past a sink of which one call fails, 0 for none.
fn over<R: Print + AllocGlobal + Threads + Wait + Sync>(
    rt: &R,
    line: &str,
    sink: u32,
) -> Result<(), NoMemory> {
    tell(rt, &run_made(rt, line, sink)?);
    Ok(())
}

/// Does what a line says.
pub fn say<R: Print + AllocGlobal + Threads + Wait + Sync>(
    rt: &R,
    world: &mut World,
    text: &str,
) -> Result<(), NoMemory> {
    let (about, rest) = text.split_once(' ').unwrap_or((text, ""));
    match about {
        "" | "!" => Ok(()),
        "head" => {
            world.head = script_of(rt.alloc(), rest)?;
            Ok(())
        }
        "say" => say_text(rt, world.head.as_slice(), rest),
        "run" => run(rt, rest, NONE),
        "runs" => tell_runs(rt, world.head.as_slice(), rest),
        "anew" => tell_anew(rt, rest),
        "deaths" => tell_deaths(rt, world.head.as_slice(), rest),
        "crashes" => tell_crashes(rt, world.head.as_slice(), rest),
        "each-byte" => tell_changed(rt, world.head.as_slice(), rest),
        "run-long" => run_long(rt, rest),
        "say-chain" => say_chain(rt, rest),
        "failing-source" | "failing-sink" | "failing-disk" => failing(rt, about, rest),
        "failures" => tell_failures(rt, rest),
        "again" => tell_again(rt, rest),
        "over" => over(rt, rest, 0),
        "over-failing-sink" => over(rt, rest, 1),
        "stopped" => tell_stopped(rt, rest),
        "meeting" => tell_meeting(rt, rest),
        _ => {
            let _ = println!(rt; "  NO SUCH CASE");
            Ok(())
        }
    }
}
