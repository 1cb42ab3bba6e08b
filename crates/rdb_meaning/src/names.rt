ghost use Rattle.std.specs.Prelude.{◌≡◌};
ghost use Rattle.std.specs.Ordering.{is_eq};
ghost use Rattle.rdb_meaning.specs.Contents.{same_name};
ghost use Rattle.ordered_entries.specs.rdb_types.Order.{chars_order};

use ordered_entries::Chars;

fn same_bytes(a: &[u8], b: &[u8]) -> bool
    ensures name { result ≡ same_name a.now b.now }
    ensures order { result ≡ is_eq (chars_order a.now b.now) }
{
    a == b
}

/// Whether two names are the same bytes.
pub fn same_name(a: &Chars, b: &Chars) -> bool
    ensures name { result ≡ same_name a.now b.now }
    ensures order { result ≡ is_eq (chars_order a.now b.now) }
{
    same_bytes(a.as_slice(), b.as_slice())
}
