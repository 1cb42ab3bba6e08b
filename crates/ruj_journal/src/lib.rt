//! The before-image journal of a member of the cluster, also called the recovery-unit journal: a header with the transaction that is open, and behind it how each line was before that transaction changed it.
#![tactic(auto)]

mod entry;
mod header;
mod limit;

pub use entry::{RujEntry, one_entry, put_entry, read_entry};
pub use header::{one_header, open_tsn, put_header};
pub use limit::{RujFull, room};
