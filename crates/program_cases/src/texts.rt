// Texts in a line.
use rdb_types::{Items, NoMemory, Word};
use std::alloc::Global;

fn escaped(byte: u8) -> u8 {
    match byte {
        b'n' => b'\n',
        b'r' => b'\r',
        b't' => b'\t',
        b'1' => 1,
        _ => byte,
    }
}

/// Adds a text to a script, whose escapes are the characters that they stand for.
pub fn add_text(script: &mut Vec<u8>, text: &str) -> Result<(), NoMemory> {
    let mut is_escape = false;
    for byte in text.as_bytes() {
        if is_escape {
            script.push(escaped(*byte))?;
            is_escape = false;
        } else if *byte == b'\\' {
            is_escape = true;
        } else {
            script.push(*byte)?;
        }
    }
    Ok(())
}

/// A script of a text.
pub fn script_of(alloc: Global, text: &str) -> Result<Vec<u8>, NoMemory> {
    let mut script = Vec::new(alloc);
    add_text(&mut script, text)?;
    Ok(script)
}

/// The scripts that stand behind bars.
pub fn scripts_in(alloc: Global, line: &str) -> Result<Vec<Vec<u8>>, NoMemory> {
    let mut scripts = Vec::new(alloc);
    for text in line.split('|').skip(1) {
        scripts.push(script_of(alloc, text)?)?;
    }
    Ok(scripts)
}

/// The words before the first bar.
pub fn words_in(alloc: Global, line: &str) -> Result<Items<Word>, NoMemory> {
    let mut words = Items::new(alloc);
    let line = line.split('|').next().unwrap_or("");
    for word in line.trim_end_matches(' ').split(' ') {
        words.push(Word::from_slice(alloc, word.as_bytes())?)?;
    }
    Ok(words)
}

/// Writes what was written, two spaces before each line.
pub fn tell_written<R: Print>(rt: &R, written: &[u8]) {
    let text = std::str::from_utf8(written).unwrap_or("?");
    for line in text.lines() {
        let _ = println!(rt; "  {line}");
    }
}
