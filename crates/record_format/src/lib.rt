//! Values, rows and Dbkeys as bytes.
#![tactic(auto)]

mod dbkey;
mod row;
mod value;

pub use dbkey::{dbkey_at, put_dbkey};
pub use rdb_types::{Dbkey, Image, Items, NoMemory, Row, row_order};
pub use row::{TooLong, VersionedRow, one_image, one_row, put_row, read_row};
pub use slot_fields::{has_zeros, put_u8, put_u16, put_zeros, u8_at, u16_at};
pub use value::{are_storable, put_values, read_values, values_size};
