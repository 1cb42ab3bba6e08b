//! A map in the order of its keys that contracts see as the list of its entries.
#![tactic(auto)]

mod entries;
mod key;
#[cfg(test)]
mod tests;

pub use entries::Entries;
pub use key::Key;
pub use rdb_types::{
    Chars, Copied, Dbkey, Field, FieldType, Fields, Image, Items, NoMemory, Positions, Row,
};
