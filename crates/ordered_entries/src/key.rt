ghost use Rattle.std.specs.Prelude.{◌≡◌};
ghost use Rattle.std.specs.declared.cmp.Ordering.{Ordering};
ghost use Rattle.std.specs.Cmp.{IsTotalOrder};
ghost use Rattle.rdb_types.specs.Order.{dbkey_order, chars_order};
ghost use Rattle.rdb_types.specs.OrderLaws.{dbkey_total, chars_total};

use rdb_types::{Chars, Dbkey};
use std::cmp::Ordering;

/// What entries are ordered by.
pub trait Key: Drop {
    ghost order: { Self → Self → Ordering };

    /// How this key stands to the other.
    fn order(&self, other: &Self) -> Ordering
        ensures { result ≡ order self.now other.now };

    ghost total: { IsTotalOrder order };
}

/// By area, then by page, then by line.
impl Key for Dbkey {
    ghost order = { dbkey_order };

    ghost total = { dbkey_total };

    fn order(&self, other: &Dbkey) -> Ordering {
        self.cmp(other)
    }
}

/// By the first character that differs, a name before those that it begins.
impl Key for Chars {
    ghost order = { chars_order };

    ghost total = { chars_total };

    fn order(&self, other: &Chars) -> Ordering {
        self.as_slice().cmp(&other.as_slice())
    }
}
