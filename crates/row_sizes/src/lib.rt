//! How long the image of a row may be, by the types of its fields.
#![tactic(auto)]

ghost use Rattle.std.specs.Prelude.{◌≡◌, ◌≤◌};
ghost use Rattle.rdb_meaning.specs.Contents.{longest_value as longest_of, class_of as class_of_fields};

use rdb_types::{DataType, Field, FieldType};

/// The bytes of the longest value of a type, as it stands in the image of a row.
pub fn longest_value(kind: &FieldType) -> u32
    ensures value { result ≡ longest_of kind.now }
    ensures small { result ≤ 65538 }
{
    match kind.kind {
        DataType::Text => 3 + u32::from(kind.size),
        DataType::Word | DataType::Longword | DataType::Quadword => 9,
    }
}

/// The class of a relation with these fields: the bytes that a line has for a row, which are 208 where no image of a row is longer than 104 bytes, and else 440. Before the values of an image stand 3 bytes.
pub fn class_of(fields: &[Field]) -> u16
    ensures class { result ≡ class_of_fields fields.now }
{
    let mut room = 101u32;
    for field in fields {
        let Some(left) = room.checked_sub(longest_value(&field.kind)) else {
            return 440;
        };
        room = left;
    }
    208
}

#[cfg(test)]
mod tests;
