// Words that are written.
use rdb_types::{Dbkey, Value};

/// Writes ` 16:2:0`.
pub fn put_key(rt: &HostRuntime, key: Dbkey) {
    let Dbkey { area, page, line } = key;
    let _ = print!(rt; " {area}:{page}:{line}");
}

/// Writes a space and the bytes as hexadecimal digits.
pub fn put_bytes(rt: &HostRuntime, bytes: &[u8]) {
    let _ = print!(rt; " ");
    for byte in bytes {
        let _ = print!(rt; "{byte:02x}");
    }
}

/// Writes a space and the text in quotation marks.
pub fn put_text(rt: &HostRuntime, text: &[u8]) {
    let text = std::str::from_utf8(text).unwrap_or("?");
    let _ = print!(rt; " '{text}'");
}

/// Writes values, a space before each.
pub fn put_values(rt: &HostRuntime, values: &[Value]) {
    for value in values {
        match value {
            Value::Missing => {
                let _ = print!(rt; " missing");
            }
            Value::Number(number) => {
                let _ = print!(rt; " {number}");
            }
            Value::Text(text) => put_text(rt, text.as_slice()),
        }
    }
}
