use crate::Items;

/// The characters of a name or of a text. Contracts see the list of the bytes.
pub type Chars = Items<u8>;

/// A word of the command line. Contracts see the list of the bytes.
pub type Word = Items<u8>;

/// The value of a field in a row: missing, a whole number, or a text.
#[derive(Debug, Drop)]
pub enum Value {
    Missing,
    Number(i64),
    Text(Chars),
}

/// The values of a row, in the order of its fields.
pub type Row = Items<Value>;

/// What a field holds: a signed number of 16, 32 or 64 bits, or a text.
#[derive(Clone, Copy, Debug, PartialEq, Eq)]
pub enum DataType {
    Word,
    Longword,
    Quadword,
    Text,
}

/// The type of a field. `scale` counts a number's digits after the point, from 0 to 9, and is 0 for a text. `size` is the length that a text may have, from 1 to 500, and is 0 for a number.
#[derive(Clone, Copy, Debug, PartialEq, Eq)]
pub struct FieldType {
    pub kind: DataType,
    pub scale: u8,
    pub size: u16,
}

/// A field of a relation, and the version of the relation that brought it.
#[derive(Debug, Drop)]
pub struct Field {
    pub name: Chars,
    pub kind: FieldType,
    pub version: u16,
}

/// The fields of a relation, in the order of their definition.
pub type Fields = Items<Field>;

/// The places of fields among a relation's fields, counted from 0.
pub type Positions = Items<u16>;

/// A value with the count of its digits after the point, which is 0 for a text and for a missing value.
#[derive(Debug, Drop)]
pub struct Scaled {
    pub value: Value,
    pub scale: u8,
}

/// One printed line.
pub type Printed = Items<Scaled>;

/// The lines that a statement prints.
pub type PrintedRows = Items<Printed>;
