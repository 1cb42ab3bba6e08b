//! Data pages: a head, and lines of one class.
#![tactic(auto)]

mod head;
mod line;
mod whole;

pub use head::{Head, lines_of, one_head, put_head, read_head};
pub use line::{agrees, is_allowed_line, one_line, put_line, read_line, state_byte, state_of};
pub use rdb_types::{Dbkey, Image, Items, Limits, LineState, NoMemory, Tsn};
pub use slot_fields::{
    bytes_at, has_bytes, has_zeros, is_zeros, put_bytes, put_u8, put_u16, put_u32, put_u64,
    put_zeros, u8_at, u16_at, u32_at, u64_at,
};
pub use whole::check_page;

/// The bytes are no page, no line of one, or no header.
#[derive(Clone, Copy, Debug, PartialEq, Eq)]
pub struct BadPage {}
