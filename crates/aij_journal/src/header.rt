// The first slot, with the number of the first group.
ghost use Rattle.std.specs.Prelude.{◌≡◌, ◌≤◌, ◌^◌, ℕ, List, Some, length, IfSome, IfNone};
ghost use Rattle.aij_journal.specs.Header.{IsHeader};

use rdb_page::{has_bytes, has_zeros, put_bytes, put_u64, put_zeros, u64_at};

/// Lays out the header, with the number of the first group.
pub fn put_header(slot: &mut [u8], first: u64)
    requires size { length slot.old ≡ 512 }
    requires allowed { first ≤ 2 ^ 62 }
    ensures { IsHeader slot.new first }
{
    put_bytes(slot, 0, b"AIJH");
    put_u64(slot, 4, first);
    put_zeros(slot, 12, 500);
}

/// The number of the first group. None is answered only where the slot is no header.
pub fn read_header(slot: &[u8]) -> Option<u64>
    requires { length slot.now ≡ 512 }
    ensures found { IfSome result (λ first. IsHeader slot.now first) }
    ensures none { IfNone result ((first : ℕ) → IsHeader slot.now first → ⊥) }

    // A header that was laid out is read again.
    ensures again { (first : ℕ) → IsHeader slot.now first → result ≡ Some first }
{
    let first = u64_at(slot, 4);
    if has_bytes(slot, 0, b"AIJH") && has_zeros(slot, 12, 500) && first <= 1 << 62 {
        Some(first)
    } else {
        None
    }
}

/// A slot is one header at most.
pub fn one_header()
    ensures { (slot : List ℕ) (a b : ℕ) → IsHeader slot a → IsHeader slot b → a ≡ b }
{}
