//! Cases of views of lines, and of sorted indexes in them, as text. Each line of standard input names a call and what it is given; it is echoed on standard output, and below it stands what the call answers. A line that begins with `-` begins with a view that knows nothing. The index is the one whose root is 17:2:0; a row is named by its page in area 16.
#![tactic(auto)]

mod index;
mod rows;
mod said;
mod telling;
mod world;

use said::say;
use std::process::ExitCode;
use telling::tell;
use world::World;

// Echoes a line, and does what it says.
fn say_line(rt: &HostRuntime, world: &mut World, text: &str) {
    let _ = println!(rt; "{text}");
    if text.starts_with("-") {
        *world = World::new(rt.alloc());
    } else if say(rt, world, text).is_err() {
        tell(rt, "NO MEMORY");
    }
}

// Says each line, and gives the status.
fn say_lines(rt: &HostRuntime, world: &mut World) -> u8 {
    for line in rt.lines(rt.alloc()) {
        let Ok(line) = line else {
            return 3;
        };
        say_line(rt, world, line.as_str());
    }
    0
}

fn main(rt: HostRuntime) -> ExitCode {
    let mut world = World::new(rt.alloc());
    ExitCode::from(say_lines(&rt, &mut world))
}
