//! What is kept in memory of the pages of an area file: whose each is, and which of its lines have an image or had one. So rooms are found and areas are scanned without a read.
#![tactic(auto)]

mod laws;
mod reading;
mod scans;
mod table;
mod uses;

pub use laws::{a_table_is_kept, the_table_has_the_lines};
pub use reading::{read_table, reread_page};
pub use table::PageTable;
pub use uses::{PageUse, Sought};
