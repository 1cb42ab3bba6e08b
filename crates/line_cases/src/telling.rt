// What is answered, as text.
use case_words::{put_bytes, put_key};
use line_view::{Need, Seen};
use rdb_types::Dbkey;
use sorted_index::{Duplicate, IndexStop};

/// Writes the line of an answer.
pub fn tell(rt: &HostRuntime, answer: &str) {
    let _ = println!(rt; "  {answer}");
}

/// Writes Dbkeys behind a word.
pub fn tell_keys(rt: &HostRuntime, what: &str, keys: &[Dbkey]) {
    let _ = print!(rt; "  {what}");
    for key in keys {
        put_key(rt, *key);
    }
    let _ = println!(rt; "");
}

/// Writes the pages of rows.
pub fn tell_pages(rt: &HostRuntime, keys: &[Dbkey]) {
    let _ = print!(rt; "  rows");
    for key in keys {
        let page = key.page;
        let _ = print!(rt; " {page}");
    }
    let _ = println!(rt; "");
}

pub fn tell_line(rt: &HostRuntime, seen: Seen<'_>) {
    match seen {
        Seen::Unknown => tell(rt, "unknown"),
        Seen::Absent => tell(rt, "absent"),
        Seen::Present(bytes) => {
            let _ = print!(rt; "  present");
            put_bytes(rt, bytes);
            let _ = println!(rt; "");
        }
    }
}

fn tell_need(rt: &HostRuntime, need: Need) {
    match need {
        Need::Line(key) => tell_keys(rt, "needs line", &[key]),
        Need::Area(area) => {
            let _ = println!(rt; "  needs area {area}");
        }
        Need::Room(room) => {
            let (area, nth) = (room.area, room.nth);
            let _ = println!(rt; "  needs room {nth} of area {area}");
        }
    }
}

pub fn tell_stop(rt: &HostRuntime, stop: IndexStop) {
    match stop {
        IndexStop::Missing(need) => tell_need(rt, need),
        IndexStop::Own(Duplicate {}) => tell(rt, "duplicate"),
        IndexStop::Bad(key) => tell_keys(rt, "bad line", &[key]),
        IndexStop::NoMemory => tell(rt, "NO MEMORY"),
    }
}
