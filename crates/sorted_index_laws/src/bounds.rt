// The keys of a range.
use rdb_types::Row;

/// The keys that a range has: none below the low bound, and none above the high one, where there is one. A key is compared with a bound by as many of its first values as the bound has; those that tie are in the range where `low_in` or `high_in` says so.
#[derive(Debug, Drop)]
pub struct Bounds {
    pub low: Option<Row>,
    pub low_in: bool,
    pub high: Option<Row>,
    pub high_in: bool,
}
