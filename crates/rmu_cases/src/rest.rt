// What a database at rest says.
use crate::texts::{tell_stop, tell_text};
use before_images::read_before_images;
use case_words::{number_of, put_bytes, put_key};
use database_dump::dump;
use lines_at_rest::{FaultyPages, RestReading, read_area};
use rdb_outside::MemoryDisk;
use rdb_types::Bytes;

/// The dump of the whole database.
pub fn tell_dump(rt: &HostRuntime, disk: &mut MemoryDisk) {
    let mut text = Bytes::new(rt.alloc());
    if dump(rt.alloc(), disk, &mut text).is_err() {
        tell_stop(rt);
        return;
    }
    tell_text(rt, text.as_slice());
}

/// `lines 16` tells the present lines of logical area 16, with the open transactions undone. Pages that fail their decoders are refused, or left out.
pub fn tell_lines(rt: &HostRuntime, disk: &mut MemoryDisk, rest: &str, faulty: FaultyPages) {
    let area = number_of(Some(rest)).unwrap_or(0);
    let Ok(before) = read_before_images(rt.alloc(), disk) else {
        tell_stop(rt);
        return;
    };
    let held = RestReading { before, faulty };
    let Ok(found) = read_area(rt.alloc(), disk, &held, area) else {
        tell_stop(rt);
        return;
    };
    for (key, image) in found.as_slice() {
        put_key(rt, *key);
        put_bytes(rt, image.bytes());
        let _ = println!(rt; "");
    }
}
