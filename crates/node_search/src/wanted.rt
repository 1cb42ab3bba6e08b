// Which keys are in question.
ghost use Rattle.std.specs.Prelude.{◌≡◌, ◌∷◌, None, if◌then◌else◌};
ghost use Rattle.sorted_index_laws.specs.Keys.{is_below_low as is_below_low_of, is_above_high as is_above_high_of, is_within as is_within_of};
ghost use Rattle.sorted_index_laws.specs.Search.{may_hold as may_hold_of};
ghost use Rattle.node_search.specs.Entries.{ShowsKey, Shows, IsFirst};
ghost use Rattle.node_search.specs.Wanted.{interval_of};

use crate::entry::{BorrowedEntry, FoundEntry};
use crate::key::{BorrowedKey, first_values_order, key_order};
use rdb_types::{Dbkey, Row, Value};
use sorted_index_laws::Bounds;

/// The keys that a search is for: one key, or those within bounds.
#[derive(Clone, Copy)]
pub enum Wanted<'a> {
    Key(&'a [Value]),
    Within(&'a Bounds),
}

fn is_below_low(low: &Option<Row>, low_in: bool, key: BorrowedKey<'_>) -> bool
    ensures { (values : _) → ShowsKey key.entry values → result ≡ is_below_low_of low.now low_in values }
{
    let Some(low) = low else {
        return false;
    };
    let order = first_values_order(key, low.as_slice());
    if low_in { order.is_lt() } else { order.is_le() }
}

fn is_above_high(high: &Option<Row>, high_in: bool, key: BorrowedKey<'_>) -> bool
    ensures { (values : _) → ShowsKey key.entry values → result ≡ is_above_high_of high.now high_in values }
{
    let Some(high) = high else {
        return false;
    };
    let order = first_values_order(key, high.as_slice());
    if high_in {
        order.is_gt()
    } else {
        order.is_ge()
    }
}

impl<'a> Wanted<'a> {
    /// Whether a key is below all that are wanted.
    pub fn is_below(self, key: BorrowedKey<'_>) -> bool
        ensures { (values : _) → ShowsKey key.entry values → result ≡ (interval_of self.entry).is_below values }
    {
        match self {
            Wanted::Key(wanted) => key_order(key, wanted).is_lt(),
            Wanted::Within(bounds) => is_below_low(&bounds.low, bounds.low_in, key),
        }
    }

    /// Whether a key is above all that are wanted.
    pub fn is_above(self, key: BorrowedKey<'_>) -> bool
        ensures { (values : _) → ShowsKey key.entry values → result ≡ (interval_of self.entry).is_above values }
    {
        match self {
            Wanted::Key(wanted) => key_order(key, wanted).is_gt(),
            Wanted::Within(bounds) => is_above_high(&bounds.high, bounds.high_in, key),
        }
    }

    /// Whether a key is wanted.
    pub fn holds(self, key: BorrowedKey<'_>) -> bool
        ensures { (values : _) → ShowsKey key.entry values → result ≡ is_within_of (interval_of self.entry) values }
    {
        !self.is_below(key) && !self.is_above(key)
    }
}

// Whether a pair that is wanted may stand below an entry, given whether it is the first of its node, and the entry behind it.
fn may_hold(
    wanted: Wanted<'_>,
    is_first: bool,
    own: BorrowedEntry<'_>,
    next: Option<FoundEntry<'_>>,
) -> bool
    ensures { (entry : _) (behind : _) → Shows own.entry entry → IsFirst next.entry behind → result ≡ may_hold_of (interval_of wanted.entry) is_first (entry ∷ behind) }
{
    if !is_first && wanted.is_above(own.key) {
        return false;
    }
    match next {
        None => true,
        Some(next) => !wanted.is_below(next.entry.key),
    }
}

/// The child of an entry, if a pair that is wanted may stand below it. It needs whether the entry is the first of its node, and the one behind it.
pub fn wanted_child(
    wanted: Wanted<'_>,
    is_first: bool,
    own: BorrowedEntry<'_>,
    next: Option<FoundEntry<'_>>,
) -> Option<Dbkey>
    ensures { (entry : _) (behind : _) → Shows own.entry entry → IsFirst next.entry behind → result ≡ (if may_hold_of (interval_of wanted.entry) is_first (entry ∷ behind) then entry.child else None) }
{
    if may_hold(wanted, is_first, own, next) {
        own.child
    } else {
        None
    }
}
