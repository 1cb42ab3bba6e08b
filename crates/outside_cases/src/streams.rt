// A source of scripts and a sink of output, in memory.
use crate::numbers::{nth, numbers_behind};
use rdb_outside::{Failed, MemorySink, MemorySource, Sink, Source};
use rdb_types::NoMemory;
use std::alloc::Global;

// The texts of a line, up to the word `fails`.
fn texts_of(alloc: Global, words: &str) -> Result<Vec<Vec<u8>>, NoMemory> {
    let mut texts = Vec::new(alloc);
    for word in words.split(' ') {
        if word == "fails" {
            return Ok(texts);
        }
        texts.push(Vec::from_slice(alloc, word.as_bytes())?)?;
    }
    Ok(texts)
}

fn new_source(rt: &HostRuntime, source: &mut MemorySource, words: &str) -> Result<(), NoMemory> {
    let alloc = rt.alloc();
    let fails = numbers_behind(alloc, words, "fails")?;
    *source = MemorySource::new(alloc, texts_of(alloc, words)?, &fails)?;
    Ok(())
}

fn new_sink(rt: &HostRuntime, sink: &mut MemorySink, words: &str) -> Result<(), NoMemory> {
    let alloc = rt.alloc();
    let fails = numbers_behind(alloc, words, "fails")?;
    *sink = MemorySink::new(alloc, nth(words, 0) as usize, &fails)?;
    Ok(())
}

fn tell_text(rt: &HostRuntime, text: &[u8]) {
    let text = std::str::from_utf8(text).unwrap_or("?");
    let _ = println!(rt; "  '{text}'");
}

// Reads two bytes of a session's text at most.
fn tell_read(rt: &HostRuntime, source: &mut MemorySource, session: u32) {
    let mut into = [0; 2];
    match source.read(session, &mut into) {
        Ok(count) => tell_text(rt, &into[..count.min(2)]),
        Err(_) => {
            let _ = println!(rt; "  fails");
        }
    }
}

fn tell_written(rt: &HostRuntime, written: Result<usize, Failed>) {
    let _ = match written {
        Ok(count) => println!(rt; "  takes {count}"),
        Err(_) => println!(rt; "  fails"),
    };
}

/// Does what a line says of a source. False where it says nothing of the kind.
pub fn say_of_source(
    rt: &HostRuntime,
    source: &mut MemorySource,
    about: &str,
    words: &str,
) -> Result<bool, NoMemory> {
    match about {
        "source" => new_source(rt, source, words)?,
        "take" => tell_read(rt, source, nth(words, 0)),
        _ => return Ok(false),
    }
    Ok(true)
}

/// Does what a line says of a sink. False where it says nothing of the kind.
pub fn say_of_sink(
    rt: &HostRuntime,
    sink: &mut MemorySink,
    about: &str,
    words: &str,
) -> Result<bool, NoMemory> {
    match about {
        "sink" => new_sink(rt, sink, words)?,
        "give" => tell_written(rt, sink.write(words.as_bytes())),
        "given" => tell_text(rt, sink.written()),
        _ => return Ok(false),
    }
    Ok(true)
}
