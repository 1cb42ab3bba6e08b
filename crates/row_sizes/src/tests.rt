use crate::{class_of, longest_value};
use rdb_types::{Chars, DataType, Field, FieldType, Fields, NoMemory};
use std::alloc::Global;
use std::test::Fail;

fn text_of(size: u16) -> FieldType {
    FieldType {
        kind: DataType::Text,
        scale: 0,
        size,
    }
}

fn text_fields(alloc: Global, sizes: &[u16]) -> Result<Fields, NoMemory> {
    let mut fields = Fields::new(alloc);
    for size in sizes {
        fields.push(Field {
            name: Chars::from_slice(alloc, b"TEXT")?,
            kind: text_of(*size),
            version: 1,
        })?;
    }
    Ok(fields)
}

#[test]
fn values_are_as_long_as_their_types_say(rt: HostRuntime) -> Result<(), Fail> {
    let quadword = FieldType {
        kind: DataType::Quadword,
        scale: 2,
        size: 0,
    };
    assert_eq!(rt; longest_value(&text_of(90)), 93);
    assert_eq!(rt; longest_value(&quadword), 9);
    Ok(())
}

#[test]
fn classes_part_at_images_of_104_bytes(rt: HostRuntime) -> Result<(), Fail> {
    let short = text_fields(rt.alloc(), &[90, 5])?;
    let long = text_fields(rt.alloc(), &[90, 6])?;
    assert_eq!(rt; class_of(short.as_slice()), 208);
    assert_eq!(rt; class_of(long.as_slice()), 440);
    Ok(())
}
