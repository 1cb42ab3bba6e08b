// What lines of the cases say.
use crate::index::{put_in, rows_of, rows_within, take_out};
use crate::rows::{drain_one, fill, fill_one, tell_count, tell_order};
use crate::telling::{tell, tell_keys, tell_line, tell_pages, tell_stop};
use crate::world::World;
use case_words::{image_of, key_of, number_of};
use line_view::{Known, PresentLine, Room, View};
use rdb_types::{Dbkey, Keys, NoMemory};
use sorted_index::IndexStop;
use std::alloc::Global;

const NO_KEY: Dbkey = Dbkey {
    area: 0,
    page: 0,
    line: 0,
};

/// The first word of a line, as a number and as a Dbkey, and the rest.
#[derive(Clone, Copy, Debug)]
struct Words<'a> {
    number: u32,
    key: Dbkey,
    rest: &'a str,
}

fn words_of(text: &str) -> Words<'_> {
    let (first, rest) = text.split_once(' ').unwrap_or((text, ""));
    Words {
        number: number_of(Some(first)).unwrap_or(0),
        key: key_of(first).unwrap_or(NO_KEY),
        rest,
    }
}

// The room of a line as `16 208 0`.
fn room_of(text: &str) -> Room {
    let mut words = text.split(' ');
    Room {
        area: number_of(words.next()).unwrap_or(0),
        class: u16::try_from(number_of(words.next()).unwrap_or(0)).unwrap_or(0),
        nth: number_of(words.next()).unwrap_or(0),
    }
}

// Begins with the first room of an area alone.
fn begin_with_room(alloc: Global, world: &mut World, words: &Words<'_>) -> Result<(), NoMemory> {
    let mut known = Known::new(alloc);
    let room = room_of(words.rest);
    if words.key.area == room.area {
        known.learn_room(room, words.key)?;
    }
    world.known = known;
    Ok(())
}

// Lines as `16:2:0 020202 16:4:0 040404` are all that are present in an area.
fn learn_area(alloc: Global, world: &mut World, words: &Words<'_>) -> Result<(), NoMemory> {
    let mut lines = Vec::new(alloc);
    let mut texts = words.rest.split(' ');
    while let Some(text) = texts.next() {
        let image = texts.next().and_then(|image| image_of(image));
        if let (Some(key), Some(image)) = (key_of(text), image) {
            lines.push(PresentLine { key, image })?;
        }
    }
    world.known.learn_area(alloc, words.number, &lines)
}

fn tell_area(rt: &HostRuntime, world: &World, area: u32) {
    let Some(keys) = world.known.area(area) else {
        return tell(rt, "unknown");
    };
    let _ = print!(rt; "  lines");
    for key in keys {
        case_words::put_key(rt, *key);
    }
    let _ = println!(rt; "");
}

fn tell_room(rt: &HostRuntime, world: &World, room: Room) {
    match world.known.room(room) {
        Some(key) => tell_keys(rt, "room", &[key]),
        None => tell(rt, "unknown"),
    }
}

fn tell_rows(rt: &HostRuntime, found: Result<Keys, IndexStop>) {
    match found {
        Ok(keys) => tell_pages(rt, keys.as_slice()),
        Err(stop) => tell_stop(rt, stop),
    }
}

fn tell_done(rt: &HostRuntime, done: Result<(), IndexStop>) {
    if let Err(stop) = done {
        tell_stop(rt, stop);
    }
}

fn tell_gone(rt: &HostRuntime, world: &World) {
    let gone = world.gone;
    let _ = println!(rt; "  {gone} nodes");
}

// What a line says of the index. False where it says nothing of the kind.
fn say_of_index(rt: &HostRuntime, world: &mut World, call: &str, rest: &str) -> bool {
    let alloc = rt.alloc();
    let words = words_of(rest);
    let number = words.number;
    match call {
        "insert" => tell_done(rt, put_in(alloc, world, words.rest, number, false)),
        "insert-unique" => tell_done(rt, put_in(alloc, world, words.rest, number, true)),
        "remove" => tell_done(rt, take_out(alloc, world, words.rest, number)),
        "find" => tell_rows(rt, rows_of(alloc, world, rest)),
        "range" => tell_rows(rt, rows_within(alloc, world, rest)),
        "fill" => tell_done(rt, fill(alloc, world, words.rest, number)),
        "fill-one" => tell_done(rt, fill_one(alloc, world, number, words.rest)),
        "drain-one" => tell_done(rt, drain_one(alloc, world, number, words.rest)),
        "in-order" => tell_order(rt, world, number),
        "count" => tell_count(rt, world),
        "gone" => tell_gone(rt, world),
        _ => return false,
    }
    true
}

/// Does what a line says.
pub fn say(rt: &HostRuntime, world: &mut World, text: &str) -> Result<(), NoMemory> {
    let (call, rest) = text.split_once(' ').unwrap_or((text, ""));
    let words = words_of(rest);
    match call {
        "begin-with-room" => begin_with_room(rt.alloc(), world, &words)?,
        "learn-line" => world
            .known
            .learn_line(rt.alloc(), words.key, image_of(words.rest))?,
        "learn-area" => learn_area(rt.alloc(), world, &words)?,
        "put" => world
            .known
            .put(rt.alloc(), words.key, image_of(words.rest))?,
        "line" => tell_line(rt, world.known.line(words.key)),
        "area" => tell_area(rt, world, words.number),
        "room" => tell_room(rt, world, room_of(rest)),
        "" | "!" => {}
        _ => if !say_of_index(rt, world, call, rest) {
            tell(rt, "NO SUCH CASE");
        },
    }
    Ok(())
}
