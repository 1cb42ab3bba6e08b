//! Cases of a store of lines in memory as text. Each line of standard input makes a call for a session; it is echoed on standard output, and below it stands what the call answers. A line that begins with `-` begins with an empty store.
#![tactic(auto)]

use memory_store::MemoryStore;
use rdb_types::{Limits, NoMemory};
use std::alloc::Global;
use std::process::ExitCode;
use store_desk::{Desk, say};

/// Four pages may be taken in an area.
fn new_desk(alloc: Global) -> Result<Desk<MemoryStore>, NoMemory> {
    let limits = Limits {
        pages: 4,
        snaps: 8,
        entries: 8,
        slots: 8,
    };
    let store = MemoryStore::new(alloc, limits)?;
    Ok(Desk::new(store))
}

// Echoes a line, and does what it says.
fn say_line(rt: &HostRuntime, desk: &mut Desk<MemoryStore>, text: &str) -> Result<(), NoMemory> {
    let _ = println!(rt; "{text}");
    if text.starts_with("-") {
        *desk = new_desk(rt.alloc())?;
    } else if !text.starts_with("!") {
        say(rt, desk, text);
    }
    Ok(())
}

// Says each line, and gives the status.
fn say_lines(rt: &HostRuntime, desk: &mut Desk<MemoryStore>) -> u8 {
    for line in rt.lines(rt.alloc()) {
        let Ok(line) = line else {
            return 3;
        };
        if say_line(rt, desk, line.as_str()).is_err() {
            return 1;
        }
    }
    0
}

fn main(rt: HostRuntime) -> ExitCode {
    match new_desk(rt.alloc()) {
        Ok(mut desk) => ExitCode::from(say_lines(&rt, &mut desk)),
        Err(_) => ExitCode::from(1),
    }
}
