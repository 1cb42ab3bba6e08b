//! Cases of a store of lines on a disk in memory. Each line of standard input makes a call for a session, as in the cases of the store in memory; it is echoed on standard output, and below it stands what the call answers. A line that begins with `-` begins with a new database, of whose disk the call with the number behind it fails, and `snaps N` with one of so many slots in each snapshot file; `crashes AREA BITS` tells which lines of an area the crashes leave that are possible now.
#![tactic(auto)]

mod crashes;
mod opening;

use case_words::number_of;
use crashes::say_crashes;
use opening::{Opened, SNAPS, opened_anew};
use std::process::ExitCode;
use store_desk::say;

fn say_line(rt: &HostRuntime, desk: &mut Opened, text: &str) {
    let (word, rest) = text.split_once(' ').unwrap_or((text, ""));
    if word != "crashes" {
        return say(rt, desk, text);
    }
    let (area, bits) = rest.split_once(' ').unwrap_or((rest, ""));
    let area = number_of(Some(area)).unwrap_or(0);
    let bits = number_of(Some(bits)).unwrap_or(0).min(8);
    say_crashes(rt, desk, area, bits);
}

/// Which disk call of a new database fails, and how many slots its snapshot files have, where the line asks for one.
fn new_database_of(text: &str) -> Option<(&str, u32)> {
    let (word, rest) = text.split_once(' ').unwrap_or((text, ""));
    match word {
        "-" => Some((rest, SNAPS)),
        "snaps" => Some(("", number_of(Some(rest)).unwrap_or(0))),
        _ => None,
    }
}

// A new database in place of the last one, which stays where the new one isn't opened.
fn begin(rt: &HostRuntime, desk: &mut Opened, fails: &str, snaps: u32) {
    match opened_anew(rt.alloc(), fails, snaps) {
        Some(anew) => *desk = anew,
        None => {
            let _ = println!(rt; "  not opened");
        }
    }
}

// Echoes a line, and does what it says.
fn do_line(rt: &HostRuntime, desk: &mut Opened, text: &str) {
    let _ = println!(rt; "{text}");
    if let Some((fails, snaps)) = new_database_of(text) {
        begin(rt, desk, fails, snaps);
    } else if !text.starts_with("!") {
        say_line(rt, desk, text);
    }
}

// Does each line, and gives the status.
fn do_lines(rt: &HostRuntime, desk: &mut Opened) -> u8 {
    for line in rt.lines(rt.alloc()) {
        let Ok(line) = line else {
            return 3;
        };
        do_line(rt, desk, line.as_str());
    }
    0
}

fn main(rt: HostRuntime) -> ExitCode {
    match opened_anew(rt.alloc(), "", SNAPS) {
        Some(mut desk) => ExitCode::from(do_lines(&rt, &mut desk)),
        None => ExitCode::from(1),
    }
}
