//! Cases of what RMU reads of a disk and writes. Each line of standard input writes bytes to a slot, or asks for a verification of pages or of all, a dump, a page or the lines of an area; it is echoed on standard output, and below it stands what RMU writes.
#![tactic(auto)]

mod disks;
mod rest;
mod texts;
mod whole;

use disks::{new_disk, write_bytes};
use lines_at_rest::FaultyPages;
use rdb_outside::MemoryDisk;
use rdb_types::NoMemory;
use rest::{tell_dump, tell_lines};
use std::process::ExitCode;
use texts::{tell_page, tell_verified};
use whole::{tell_checked, tell_each};

fn say(rt: &HostRuntime, disk: &mut MemoryDisk, text: &str) -> Result<(), NoMemory> {
    let (about, rest) = text.split_once(' ').unwrap_or((text, ""));
    match about {
        "" | "!" => {}
        "disk" => *disk = new_disk(rt.alloc(), rest)?,
        "verify" => tell_verified(rt, disk)?,
        "page" => tell_page(rt, disk, rest)?,
        "dump" => tell_dump(rt, disk),
        "lines" => tell_lines(rt, disk, rest, FaultyPages::Refused),
        "left" => tell_lines(rt, disk, rest, FaultyPages::LeftOut),
        "check" => tell_checked(rt, disk)?,
        "each" => tell_each(rt, disk, rest)?,
        _ => if !write_bytes(disk, about, rest) {
            let _ = println!(rt; "NO SUCH CASE");
        },
    }
    Ok(())
}

// Says each line, and gives the status.
fn say_lines(rt: &HostRuntime, disk: &mut MemoryDisk) -> u8 {
    for line in rt.lines(rt.alloc()) {
        let Ok(line) = line else {
            return 3;
        };
        let text = line.as_str();
        let _ = println!(rt; "{text}");
        if say(rt, disk, text).is_err() {
            return 5;
        }
    }
    0
}

fn main(rt: HostRuntime) -> ExitCode {
    match new_disk(rt.alloc(), "0") {
        Ok(mut disk) => ExitCode::from(say_lines(&rt, &mut disk)),
        Err(_) => ExitCode::from(5),
    }
}
