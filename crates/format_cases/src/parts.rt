// Parts of images: values, Dbkeys, the order of values, names and types.
use case_words::{key_of, number_of, put_bytes, put_key, row_of};
use catalog_lines::{is_name, is_type};
use rdb_types::{DataType, Dbkey, FieldType, NoMemory, Value, row_order, value_order};
use record_format::{are_storable, dbkey_at, put_dbkey, put_values, read_values, values_size};
use std::cmp::Ordering;

/// Writes bytes as a line.
pub fn tell_bytes(rt: &HostRuntime, bytes: &[u8]) {
    let _ = print!(rt; " ");
    put_bytes(rt, bytes);
    let _ = println!(rt; "");
}

// Writes values behind a first byte of nines, and reads them there.
fn tell_values(rt: &HostRuntime, values: &[Value]) -> Result<(), NoMemory> {
    let mut slot = [9; 40];
    if !are_storable(values) || values_size(values, 39).is_none() {
        let _ = println!(rt; "  no room");
        return Ok(());
    }
    let end = put_values(&mut slot, 1, values);
    tell_bytes(rt, &slot);
    if let Some(read) = read_values(rt.alloc(), &slot[..end], 1)? {
        let _ = print!(rt; "  read as");
        case_words::put_values(rt, read.as_slice());
        let _ = println!(rt; "");
    }
    Ok(())
}

fn tell_key(rt: &HostRuntime, key: Dbkey) {
    let mut slot = [9; 12];
    put_dbkey(&mut slot, 1, key);
    tell_bytes(rt, &slot);
    let _ = print!(rt; "  read as");
    put_key(rt, dbkey_at(&slot, 1));
    let _ = println!(rt; "");
}

fn tell_order(rt: &HostRuntime, order: Ordering) {
    let _ = match order {
        Ordering::Less => println!(rt; "  less"),
        Ordering::Equal => println!(rt; "  equal"),
        Ordering::Greater => println!(rt; "  greater"),
    };
}

// Tells the order of the first of the values and each other, and of each beginning of the key and the key.
fn tell_orders(rt: &HostRuntime, values: &[Value]) {
    for (at, value) in values.iter().enumerate() {
        let _ = print!(rt; "  value {at}:");
        for other in values {
            let _ = match value_order(value, other) {
                Ordering::Less => print!(rt; " <"),
                Ordering::Equal => print!(rt; " ="),
                Ordering::Greater => print!(rt; " >"),
            };
        }
        let _ = println!(rt; "");
    }
    for length in 0..values.len() {
        tell_order(rt, row_order(&values[..length], values));
    }
}

fn tell_truth(rt: &HostRuntime, answer: bool) {
    let _ = match answer {
        true => println!(rt; "  yes"),
        false => println!(rt; "  no"),
    };
}

fn tell_name(rt: &HostRuntime, values: &[Value]) {
    for value in values {
        if let Value::Text(name) = value {
            tell_truth(rt, is_name(name.as_slice()));
        }
    }
}

// The type of words as `LONGWORD 2 0`, its scale and its size.
fn type_of(words: &str) -> FieldType {
    let mut words = words.split(' ');
    FieldType {
        kind: match words.next().unwrap_or("") {
            "WORD" => DataType::Word,
            "LONGWORD" => DataType::Longword,
            "QUADWORD" => DataType::Quadword,
            _ => DataType::Text,
        },
        scale: u8::try_from(number_of(words.next()).unwrap_or(0)).unwrap_or(0),
        size: u16::try_from(number_of(words.next()).unwrap_or(0)).unwrap_or(0),
    }
}

/// Tells what a line asks of parts. False where it asks nothing of the kind.
pub fn say_of_parts(rt: &HostRuntime, about: &str, rest: &str) -> Result<bool, NoMemory> {
    let values = row_of(rt.alloc(), rest)?;
    match about {
        "values" => tell_values(rt, values.as_slice())?,
        "order" => tell_orders(rt, values.as_slice()),
        "names" => tell_name(rt, values.as_slice()),
        "type" => tell_truth(rt, is_type(type_of(rest))),
        "key" => if let Some(key) = key_of(rest) {
            tell_key(rt, key);
        },
        _ => return Ok(false),
    }
    Ok(true)
}
