// Words that are read.
use rdb_types::{Chars, Dbkey, Image, NoMemory, Row, Value};
use std::alloc::Global;

/// A text of a case has so many bytes at most.
const MAX_TEXT: u32 = 440;

/// A number, if there is a word for one.
pub fn number_of(word: Option<&str>) -> Option<u32> {
    word?.parse::<u32>().ok()
}

/// A Dbkey as `16:2:0`.
pub fn key_of(word: &str) -> Option<Dbkey> {
    let mut numbers = word.split(':');
    let area = number_of(numbers.next())?;
    let page = number_of(numbers.next())?;
    let line = u16::try_from(number_of(numbers.next())?).ok()?;
    Some(Dbkey { area, page, line })
}

fn digit_of(byte: u8) -> Option<u8> {
    match byte {
        b'0'..=b'9' => Some(byte.wrapping_sub(b'0')),
        b'a'..=b'f' => Some(byte.wrapping_sub(b'a').wrapping_add(10)),
        _ => None,
    }
}

fn byte_of(digits: &[u8]) -> Option<u8> {
    match digits {
        [high, low] => {
            let high = digit_of(*high)?.wrapping_mul(16);
            Some(high.wrapping_add(digit_of(*low)?))
        }
        _ => None,
    }
}

/// The bytes of hexadecimal digits, 440 at most; `-` stands for none of them.
pub fn image_of(word: &str) -> Option<Image> {
    if word.is_empty() {
        return None;
    }
    let digits = if word == "-" {
        b"".as_slice()
    } else {
        word.as_bytes()
    };
    let size = digits.len() / 2;
    if size > 440 {
        return None;
    }
    let mut bytes = [0; 440];
    for (place, pair) in bytes.iter_mut().zip(digits.chunks(2)) {
        *place = byte_of(pair)?;
    }
    Some(Image::from_bytes(&bytes[..size]))
}

// A text as `A*117`, or as it stands.
fn text_of(alloc: Global, word: &str) -> Result<Chars, NoMemory> {
    let mut text = Chars::new(alloc);
    match word.split_once('*') {
        Some((byte, count)) => {
            for _ in 0..number_of(Some(count)).unwrap_or(0).min(MAX_TEXT) {
                text.push(byte.as_bytes().first().copied().unwrap_or(b' '))?;
            }
        }
        None => {
            for byte in word.as_bytes() {
                text.push(*byte)?;
            }
        }
    }
    Ok(text)
}

fn push_value(alloc: Global, row: &mut Row, word: &str) -> Result<(), NoMemory> {
    if word == "missing" {
        row.push(Value::Missing)?;
    } else if let Ok(number) = word.parse::<i64>() {
        row.push(Value::Number(number))?;
    } else {
        row.push(Value::Text(text_of(alloc, word.trim_matches('\''))?))?;
    }
    Ok(())
}

/// The row of values as `12 -1 missing 'AB' A*117`; a text with spaces or of digits isn't possible but by `A*117`.
pub fn row_of(alloc: Global, words: &str) -> Result<Row, NoMemory> {
    let mut row = Row::new(alloc);
    for word in words.split(' ') {
        if !word.is_empty() {
            push_value(alloc, &mut row, word)?;
        }
    }
    Ok(row)
}
