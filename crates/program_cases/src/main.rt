//! Cases of the program as text, run over objects in memory. Each line of standard input names a command line and what the scripts say; it is echoed on standard output, and below it stands what the program writes, and its status where that isn't 0. In scripts `\n` ends a line, `\r` and `\t` are these characters, and `\1` is a byte that is no character of RDO. Scripts stand behind bars, and runs that follow one another over one database behind `#`, where `byte area 1 1 0 7` puts byte 7 at place 0 of slot 1 of the first area, and `cut 40` stands before a run that a crash stops behind its 40th call; behind a crash two runs may stand, with `&` between them. `each-byte` changes one byte of a file after another, and does the commands over each database that this gives.
#![tactic(auto)]

mod cases;
mod changing;
mod failing;
mod following;
mod keeping;
mod making;
mod meeting;
mod runs;
mod texts;

use cases::{World, say};
use std::process::ExitCode;
use std::sync::Wait;
use std::thread::Threads;

// Says each line, and gives the status.
fn say_lines<R: Input + Print + AllocGlobal + Threads + Wait + Sync>(
    rt: &R,
    world: &mut World,
) -> u8 {
    for line in rt.lines(rt.alloc()) {
        let Ok(line) = line else {
            return 3;
        };
        let text = line.as_str();
        let _ = println!(rt; "{text}");
        if say(rt, world, text).is_err() {
            return 5;
        }
    }
    0
}

fn main(rt: HostRuntime) -> ExitCode {
    match World::new(rt.alloc()) {
        Ok(mut world) => ExitCode::from(say_lines(&rt, &mut world)),
        Err(_) => ExitCode::from(5),
    }
}
