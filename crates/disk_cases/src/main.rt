//! Cases of real files as text, run in an empty folder. Each line of standard input names a call and what it is given; it is echoed on standard output, and below it stands what comes of it. Disks are numbered from 0 in the order in which they are opened, until all are closed.
#![tactic(auto)]

mod disks;
mod files;
mod scripts;

use disks::{Disks, say_of_disks};
use files::say_of_files;
use rdb_types::NoMemory;
use scripts::tell_scripts;
use std::process::ExitCode;

fn say(rt: &HostRuntime, disks: &mut Disks, text: &str) -> Result<(), NoMemory> {
    let (about, rest) = text.split_once(' ').unwrap_or((text, ""));
    let is_said = match about {
        "" | "!" => true,
        "scripts" => {
            tell_scripts(rt, rest)?;
            true
        }
        _ => say_of_files(rt, about, rest) || say_of_disks(rt, disks, about, rest)?,
    };
    if !is_said {
        let _ = println!(rt; "  NO SUCH CASE");
    }
    Ok(())
}

// Says each line, and gives the status.
fn say_lines(rt: &HostRuntime, disks: &mut Disks) -> u8 {
    for line in rt.lines(rt.alloc()) {
        let Ok(line) = line else {
            return 3;
        };
        let text = line.as_str();
        let _ = println!(rt; "{text}");
        if say(rt, disks, text).is_err() {
            return 5;
        }
    }
    0
}

fn main(rt: HostRuntime) -> ExitCode {
    let mut disks = Vec::new(rt.alloc());
    ExitCode::from(say_lines(&rt, &mut disks))
}
