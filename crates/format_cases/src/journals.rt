// After-image journals that are scanned slot by slot.
ghost use Rattle.std.specs.Prelude.{◌≡◌, ◌+◌, ◌^◌, ◌<◌, true};
ghost use Rattle.aij_journal.specs.Part.{IsAllowedWhat};
ghost use Rattle.journal_scan.specs.Reading.{slot_of};

use aij_journal::{AijPart, GroupLine, put_slot};
use case_words::number_of;
use journal_scan::{Scan, Stage, Turn, room};
use rdb_types::{Dbkey, Image, Limits, LineState, NoMemory, Tsn};

fn line_at(page: u32) -> Option<GroupLine>
    ensures { IsAllowedWhat result }
{
    if page == 0 {
        return None;
    }
    Some(GroupLine {
        key: Dbkey {
            area: 16,
            page,
            line: 0,
        },
        class: 208,
        state: LineState::Present,
        image: Image::from_bytes(b"\x01\x00"),
    })
}

/// The numbers of a line; those that it lacks are 0.
#[derive(Clone, Copy, Debug)]
struct Numbers {
    first: u32,
    second: u32,
    third: u32,
    fourth: u32,
    fifth: u32,
}

fn numbers_of(words: &str) -> Numbers {
    let mut words = words.split(' ');
    Numbers {
        first: number_of(words.next()).unwrap_or(0),
        second: number_of(words.next()).unwrap_or(0),
        third: number_of(words.next()).unwrap_or(0),
        fourth: number_of(words.next()).unwrap_or(0),
        fifth: number_of(words.next()).unwrap_or(0),
    }
}

// Whether it has taken few slots.
fn is_short(scan: &Scan) -> bool
    ensures { result ≡ true → slot_of scan.now + 1 < 2 ^ 32 }
{
    scan.next_slot < 1000
        && match &scan.stage {
            Stage::Within(begun) => begun.lines.len() < 1000,
            Stage::Between | Stage::Ended => true,
        }
}

// The slot of a group's number, its TSN, its index and its count, and the page of its line, or 0 where it commits.
fn take(rt: &HostRuntime, scan: &mut Scan, numbers: Numbers) -> Result<(), NoMemory> {
    let part = AijPart {
        number: u64::from(numbers.first),
        tsn: Tsn {
            number: u64::from(numbers.second),
        },
        index: numbers.third,
        count: numbers.fourth,
        line: line_at(numbers.fifth),
    };
    let mut slot = [0; 512];
    put_slot(&mut slot, &part);
    if is_short(scan) && scan.take(rt.alloc(), &slot)? == Turn::Ended {
        let _ = println!(rt; "  ends");
    }
    Ok(())
}

fn tell_found(rt: &HostRuntime, scan: &Scan) {
    for group in scan.groups.as_slice() {
        let (number, tsn, lines) = (group.number, group.tsn.number, group.lines.len());
        let _ = println!(rt; "  group {number} of {tsn}, {lines} lines");
    }
    let (slot, number) = (scan.next_slot, scan.next_number);
    let _ = println!(rt; "  next slot {slot}, next group {number}");
}

// Whether a journal of so many slots has room from a slot on for so many lines.
fn tell_room(rt: &HostRuntime, numbers: Numbers) {
    let limits = Limits {
        pages: 2,
        snaps: 1,
        entries: 2,
        slots: numbers.first,
    };
    let _ = match room(&limits, numbers.second, numbers.third) {
        Ok(()) => println!(rt; "  has room"),
        Err(full) => {
            let limit = full.limit;
            println!(rt; "  full at {limit}")
        }
    };
}

/// Does what a line says of a journal. False where it says nothing of the kind.
pub fn say_of_journal(
    rt: &HostRuntime,
    scan: &mut Scan,
    about: &str,
    rest: &str,
) -> Result<bool, NoMemory> {
    let numbers = numbers_of(rest);
    match about {
        "journal" => *scan = Scan::new(rt.alloc(), u64::from(numbers.first)),
        "journal-at" => *scan = Scan::at(rt.alloc(), numbers.first, u64::from(numbers.second)),
        "slot" => take(rt, scan, numbers)?,
        "found" => tell_found(rt, scan),
        "room" => tell_room(rt, numbers),
        _ => return Ok(false),
    }
    Ok(true)
}
