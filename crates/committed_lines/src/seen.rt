// What memory has of open transactions.
ghost use Rattle.std.specs.Prelude.{◌≡◌, ◌≢◌, ◌<◌, ◌^◌, ℕ, length, slice_get, Some, IfSome, IfNone};
ghost use Rattle.committed_lines.specs.Seen.{Seen};

use rdb_types::{Dbkey, Tsn};

/// A member as a store has it in memory. Where before-images of its transaction stand, it tells the transaction's number and the keys of the before-images in their order.
pub trait HasBeforeImages {
    ghost use Rattle.std.specs.Prelude.{◌≡◌, ◌+◌, ◌<◌, ◌^◌, ℕ, Option, Some, IfSome, IfNone, slice_get, true, false};
    ghost use Rattle.rdb_types.specs.declared.keys.Dbkey.{Dbkey as Key};
    ghost use Rattle.committed_lines.specs.Seen.{Seen};

    /// What is seen of its transaction.
    ghost seen: { Self → Option Seen };

    /// Whether before-images of its transaction stand, and this is its number.
    fn bears(&self, tsn: Tsn) -> bool
        ensures yes { result ≡ true → (its : Seen) × (seen self.now ≡ Some its) × (its.tsn.number ≡ tsn.number) }
        ensures no { result ≡ false → (its : Seen) → seen self.now ≡ Some its
            → its.tsn.number ≡ tsn.number → ⊥ };

    /// The one place of a key among those of its before-images.
    fn place(&self, key: Dbkey) -> Option<u32>
        ensures found { IfSome result (λ place. (place + 1 < 2 ^ 32) × ((its : Seen) → seen self.now ≡ Some its
            → slice_get its.keys place ≡ Some key)
            × ((its : Seen) (i : ℕ) → seen self.now ≡ Some its → slice_get its.keys i ≡ Some key → i ≡ place)) }
        ensures none { IfNone result ((its : Seen) (i : ℕ) → seen self.now ≡ Some its
            → slice_get its.keys i ≡ Some key → ⊥) };
}

/// The member whose transaction has this number, if before-images of it stand.
pub(crate) fn bearer<T: HasBeforeImages>(members: &[T], tsn: Tsn) -> Option<u32>
    requires { length members.now < 2 ^ 32 }
    ensures found { IfSome result (λ member. (its : _) × (seen : Seen)
        × (slice_get members.now member ≡ Some its) × (T.seen its ≡ Some seen)
        × (seen.tsn.number ≡ tsn.number)) }
    ensures none { IfNone result ((i : ℕ) (its : _) (seen : Seen) → slice_get members.now i ≡ Some its
        → T.seen its ≡ Some seen → seen.tsn.number ≡ tsn.number → ⊥) }
{
    for member in 0..members.len() as u32 {
        if members[member as usize].bears(tsn) {
            return Some(member);
        }
    }
    None
}
