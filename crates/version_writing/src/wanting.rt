// Who wants what transactions pushed aside.
ghost use Rattle.std.specs.Prelude.{◌≡◌, true, false};
ghost use Rattle.version_writing.specs.Wanting.{IsUnwantedIn};

use rdb_types::Tsn;

/// A member as a store has it in memory, which may want what a transaction pushed aside: as the one that pushed it, or as a reader that doesn't see it.
pub trait MayWant {
    ghost use Rattle.std.specs.Prelude.{◌≡◌, ℕ, true, false};

    /// Whether it doesn't want what the transaction of a number pushed aside.
    ghost unwanted: { Self → ℕ → Type 0 };

    fn wants(&self, tsn: Tsn) -> bool
        ensures yes { result ≡ true → unwanted self.now tsn.number → ⊥ }
        ensures no { result ≡ false → unwanted self.now tsn.number };
}

/// What all transactions but one pushed aside is wanted.
#[derive(Clone, Copy, Debug, PartialEq, Eq)]
pub(crate) struct AllBut {
    pub tsn: Tsn,
}

impl MayWant for AllBut {
    ghost use Rattle.std.specs.Prelude.{◌≡◌};

    ghost unwanted = { λ but tsn. tsn ≡ but.tsn.number };

    fn wants(&self, tsn: Tsn) -> bool {
        tsn.number != self.tsn.number
    }
}

/// Whether one of these members wants what a transaction pushed aside.
pub fn is_wanted<T: MayWant>(members: &[T], tsn: Tsn) -> bool
    ensures yes { result ≡ true → IsUnwantedIn T.unwanted members.now tsn.number → ⊥ }
    ensures no { result ≡ false → IsUnwantedIn T.unwanted members.now tsn.number }
{
    for place in 0..members.len() {
        if members[place].wants(tsn) {
            return true;
        }
    }
    false
}
