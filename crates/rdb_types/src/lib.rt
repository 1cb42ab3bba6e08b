//! The plain types that every crate of the engine shares.
#![tactic(auto)]

mod bytes;
mod copied;
mod file;
mod image;
mod keys;
mod memory;
mod node;
mod order;
mod session;
mod values;

pub use bytes::Bytes;
pub use copied::Copied;
pub use file::{FileId, FileKind};
pub use image::Image;
pub use keys::{Dbkey, Keys, Limits, Line, LineState, Tsn};
pub use memory::{NoMemory, OrMemory};
pub use node::{Level, Node};
pub use order::{orders_are_exact, orders_are_total, row_order, value_order};
pub use session::{Cause, Moment, Session};
pub use sqlite_items::{Boxed, Items};
pub use values::{
    Chars, DataType, Field, FieldType, Fields, Positions, Printed, PrintedRows, Row, Scaled, Value,
    Word,
};
