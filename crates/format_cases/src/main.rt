//! Cases of the formats as text. Each line of standard input names a kind of bytes and what it is about; it is echoed on standard output, and below it stands what the bytes are read as, and whether that is written as the same bytes.
#![tactic(auto)]

mod flips;
mod images;
mod journals;
mod pages;
mod parts;
mod read;

use case_words::image_of;
use flips::{as_it_stands, first_bytes, kind_of};
use images::{Kind, read_as, tell_image};
use journal_scan::Scan;
use journals::say_of_journal;
use pages::say_of_pages;
use parts::{say_of_parts, tell_bytes};
use rdb_types::NoMemory;
use read::{tell_counts, tell_read};
use std::process::ExitCode;

fn say_of_image(rt: &HostRuntime, kind: Kind, digits: &str) -> Result<(), NoMemory> {
    if let Some(image) = image_of(digits) {
        tell_image(rt, kind, image.bytes())?;
        tell_read(rt, read_as(rt.alloc(), kind, image.bytes())?);
    }
    Ok(())
}

fn say_of_flips(rt: &HostRuntime, kind: Kind, digits: &str) -> Result<(), NoMemory> {
    if let Some(image) = image_of(digits) {
        tell_counts(rt, images::flipped(rt.alloc(), kind, &image)?);
    }
    Ok(())
}

// A slot, and each of its bytes changed.
fn say_of_slot(rt: &HostRuntime, word: &str) -> bool {
    let Some(kind) = kind_of(word) else {
        return false;
    };
    tell_read(rt, as_it_stands(kind));
    tell_counts(rt, flips::flipped(kind));
    true
}

// The first bytes of a slot.
fn say_of_bytes(rt: &HostRuntime, word: &str) {
    if let Some(kind) = kind_of(word) {
        tell_bytes(rt, &first_bytes(kind));
    }
}

fn say(rt: &HostRuntime, scan: &mut Scan, text: &str) -> Result<(), NoMemory> {
    let (about, rest) = text.split_once(' ').unwrap_or((text, ""));
    match about {
        "row" => say_of_image(rt, Kind::Row, rest)?,
        "node" => say_of_image(rt, Kind::Node, rest)?,
        "catalog" => say_of_image(rt, Kind::Catalog, rest)?,
        "bytes-of" => say_of_bytes(rt, rest),
        "flip-row" => say_of_flips(rt, Kind::Row, rest)?,
        "flip-node" => say_of_flips(rt, Kind::Node, rest)?,
        "flip-catalog" => say_of_flips(rt, Kind::Catalog, rest)?,
        "" | "!" => {}
        _ => {
            let is_said = say_of_slot(rt, about)
                || say_of_pages(rt, about)
                || say_of_journal(rt, scan, about, rest)?
                || say_of_parts(rt, about, rest)?;
            if !is_said {
                let _ = println!(rt; "  NO SUCH CASE");
            }
        }
    }
    Ok(())
}

// Says each line, and gives the status.
fn say_lines(rt: &HostRuntime, scan: &mut Scan) -> u8 {
    for line in rt.lines(rt.alloc()) {
        let Ok(line) = line else {
            return 3;
        };
        let text = line.as_str();
        let _ = println!(rt; "{text}");
        if say(rt, scan, text).is_err() {
            return 5;
        }
    }
    0
}

fn main(rt: HostRuntime) -> ExitCode {
    let mut scan = Scan::new(rt.alloc(), 1);
    ExitCode::from(say_lines(&rt, &mut scan))
}
